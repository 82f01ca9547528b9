//! Each call once, with addresses that were worked out by hand.
use address_history::*;
use etm_types::AddrForm;

#[test]
fn a_match_is_pushed_again(rt: HostRuntime) {
    let mut history = History::reset();
    for addr in [0x1000, 0x2000, 0x3000] {
        history.push(addr);
    }
    for (index, addr) in [(2, 0x1000), (0, 0x1000), (2, 0x3000)] {
        let given = history.apply(&AddrForm::Match(index));
        assert_eq!(rt; given, addr, "at {index}");
        history.push(given);
    }
    assert_eq!(rt;
        (history.entry(0), history.entry(1), history.entry(2)),
        (0x3000, 0x1000, 0x1000)
    );
}

#[test]
fn an_address_is_given_by_the_first_form(rt: HostRuntime) {
    let mut history = History::reset();
    history.push(0x1000);
    for (addr, form) in [
        (0x1000, AddrForm::Match(0)),
        (0, AddrForm::Match(1)),
        (0x11fc, AddrForm::Short1(0x1fc)),
        (0x1200, AddrForm::Short2(0x1200)),
        (0x1_fffc, AddrForm::Short2(0x1_fffc)),
        (0x2_0000, AddrForm::Long32(0x2_0000)),
        (0x1_0000_0000, AddrForm::Long64(0x1_0000_0000)),
    ] {
        assert_eq!(rt; history.choose(addr), form, "at {addr}");
        assert_eq!(rt; history.apply(&form), addr, "at {addr}");
    }
}
