//! Texts against those of the slow model.
use bench_gen::generate;
use std::test::*;

#[test]
fn the_texts_of_0(rt: HostRuntime) -> Result<(), Fail> {
    let made = generate(rt.alloc(), 0)?;
    let image =
        b"@10000\n1f2003d5 600000b4 03000014 1f2003d5 1f2003d5 fbffff17\n@20000\ne0039fd6\n";
    let bench = b"etm 1\ndepth 16\nvmid 1\ncid 4\nstack 15\nstream 01\non 10000 el0 ns 0 0\n\
step\ntaken\nstep\ncancel 1\nflip\ntaken\ntaken\nretire 4\nweave 01:7\n";
    assert_eq!(rt; made.image(), image.as_slice());
    assert_eq!(rt; made.bench(), bench.as_slice());
    Ok(())
}

#[test]
fn long_run_files(rt: HostRuntime) -> Result<(), Fail> {
    let sums = [
        (110, 8_425, 2_727_082_945),
        (3_441, 1_895, 2_198_426_377),
        (99_999, 4_397_062, 957_933_945),
    ];
    for (n, length, checksum) in sums {
        let made = generate(rt.alloc(), n)?;
        let mut sum: u32 = 0;
        for byte in made.bench() {
            sum = sum.wrapping_mul(31).wrapping_add(u32::from(*byte));
        }
        assert_eq!(rt; made.bench().len(), length, "at {n}");
        assert_eq!(rt; sum, checksum, "at {n}");
    }
    Ok(())
}
