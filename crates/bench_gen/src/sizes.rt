//! How many streams and rounds a run file has.
ghost use Rattle.std.specs.Prelude.{◌≡◌};
ghost use Rattle.bench_gen.specs.Bench.{rounds, streams};

/// The most streams that there are.
pub const MOST_STREAMS: u32 = 111;

/// How many streams there are. Their IDs count from 1 on.
pub fn stream_count(n: u32) -> u8
    ensures { result ≡ streams n }
{
    1 + (n % MOST_STREAMS) as u8
}

/// How many rounds each stream has.
pub fn round_count(n: u32) -> u32
    ensures { result ≡ rounds n }
{
    1 + n / MOST_STREAMS
}
