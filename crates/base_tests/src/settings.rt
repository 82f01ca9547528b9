//! Each call once, with numbers from the architecture.
use etm_types::*;
use std::test::Fail;

#[test]
fn settings_have_their_ranges(rt: HostRuntime) -> Result<(), Fail> {
    let settings = Settings::new(16384, 1, 4).ok().ok_or("these are settings")?;
    assert_eq!(rt;
        (
            settings.depth(),
            settings.vmid_bytes(),
            settings.cid_bytes()
        ),
        (16384, 1, 4)
    );
    let ctx = Ctx {
        el: 3,
        ns: true,
        vmid: 0xff,
        cid: 0xffff_ffff,
    };
    assert!(rt; settings.fits(&ctx));
    assert!(rt; !settings.fits(&Ctx { vmid: 0x100, ..ctx }));
    assert_eq!(rt;
        Settings::new(16385, 3, 4),
        Err(SettingsFault::DepthRange(16385))
    );
    assert_eq!(rt; Settings::new(16, 3, 5), Err(SettingsFault::SizeRange(3)));
    assert_eq!(rt; Settings::new(16, 2, 5), Err(SettingsFault::SizeRange(5)));
    assert_eq!(rt; Settings::new(16, 1, 4), Ok(Settings::default()));
    Ok(())
}

#[test]
fn each_id_has_its_settings(rt: HostRuntime) -> Result<(), Fail> {
    let all = Settings::new(16, 1, 4).ok().ok_or("these are settings")?;
    let other = Settings::new(16384, 0, 0).ok().ok_or("these are settings")?;
    let mut table = SettingsTable::new(all);
    let id = |n: u8| Id::new(n).ok_or("this is an ID");
    table.set(id(1)?, other);
    table.set(id(111)?, other);
    for (n, settings) in [(1, other), (2, all), (110, all), (111, other)] {
        assert_eq!(rt; table.get(id(n)?), settings, "at {n}");
    }
    Ok(())
}

#[test]
fn ids_are_1_to_111(rt: HostRuntime) {
    for (n, is_id) in [
        (0, false),
        (1, true),
        (111, true),
        (112, false),
        (255, false),
    ] {
        assert_eq!(rt; Id::new(n).map(|id| id.get()), is_id.then_some(n), "at {n}");
    }
}

#[test]
fn a_context_is_given_by_what_differs(rt: HostRuntime) {
    let last = Ctx {
        el: 0,
        ns: false,
        vmid: 7,
        cid: 0x1234,
    };
    let ctx = Ctx {
        el: 1,
        ns: true,
        vmid: 7,
        cid: 0,
    };
    let bits = CtxBits::against(&last, &ctx);
    assert_eq!(rt;
        bits,
        CtxBits {
            el: 1,
            ns: true,
            vmid: None,
            cid: Some(0),
        }
    );
    assert_eq!(rt; bits.apply(&last), ctx);
}
