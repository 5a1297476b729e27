//! The numbers that an operator chooses for an instance: how many blobs and results it keeps, how
//! many bytes of results, and how large the receive windows of its connections are.
#![tactic(auto)]

ghost use Rattle.std.specs.Prelude.{◌≤◌, ◌<◌, ◌^◌};

/// The most blobs, the most results and the most bytes of results that may be chosen.
const MOST: u64 = 1 << 31;

/// The fewest bytes of results that may be chosen: as many as the longest message that an instance
/// takes has, so that each result that comes fits.
const FEWEST_RESULT_BYTES: u64 = 4_194_304;

/// The smallest window that may be chosen (RFC 9113, section 6.9.2).
const SMALLEST_WINDOW: u32 = 65_535;

/// The largest window that may be chosen (RFC 9113, section 6.9.1).
const LARGEST_WINDOW: u32 = 0x7fff_ffff;

/// How much an instance keeps, and how much each of its connections may receive unasked.
#[derive(Clone, Copy, Debug)]
pub struct Limits {
    blobs: u64,
    results: u64,
    result_bytes: u64,
    window: u32,
    pub ghost some_blobs: { 0 < blobs },
    pub ghost few_blobs: { blobs ≤ 2 ^ 31 },
    pub ghost few_results: { results ≤ 2 ^ 31 },
    pub ghost room: { 4194304 ≤ result_bytes },
    pub ghost short_results: { result_bytes ≤ 2 ^ 31 },
    pub ghost least: { 65535 ≤ window },
    pub ghost most: { window < 2 ^ 31 },
}

impl Limits {
    ghost use Rattle.std.specs.Prelude.{◌≡◌, ◌↔◌, is_some, IfSome, IsTrue};
    ghost use Rattle.instance_limits.specs.Limits.{IsLimits, usual_limits};
    ghost use Rattle.instance_limits.specs.Shown.{limits_value};

    /// These numbers, where each may be chosen: 1 to 2^31 blobs, 0 to 2^31 results, 4,194,304 to
    /// 2^31 bytes of results, and a window of 65,535 to 2^31 - 1 bytes.
    pub fn new(blobs: u64, results: u64, result_bytes: u64, window: u32) -> Option<Limits>
        ensures exact { IsTrue (is_some result) ↔ IsLimits (record {
          blobs = blobs;
          results = results;
          result_bytes = result_bytes;
          window = window;
        }) }
        ensures numbers { IfSome result (λ limits. limits_value limits ≡ record {
          blobs = blobs;
          results = results;
          result_bytes = result_bytes;
          window = window;
        }) }
    {
        if blobs == 0 || blobs > MOST || results > MOST {
            return None;
        }
        if result_bytes < FEWEST_RESULT_BYTES || result_bytes > MOST {
            return None;
        }
        if window < SMALLEST_WINDOW || window > LARGEST_WINDOW {
            return None;
        }
        Some(Limits {
            blobs,
            results,
            result_bytes,
            window,
        })
    }

    /// What an instance has where nothing else is chosen: 65,536 blobs, 10,000 results of
    /// 67,108,864 bytes together, and windows of 65,535 bytes.
    pub fn usual() -> Limits
        ensures { limits_value result ≡ usual_limits }
    {
        Limits {
            blobs: 65_536,
            results: 10_000,
            result_bytes: 67_108_864,
            window: SMALLEST_WINDOW,
        }
    }

    /// The most blobs.
    pub fn blobs(&self) -> u64
        ensures { result ≡ (limits_value self.now).blobs }
    {
        self.blobs
    }

    /// The most results.
    pub fn results(&self) -> u64
        ensures { result ≡ (limits_value self.now).results }
    {
        self.results
    }

    /// The most bytes of results.
    pub fn result_bytes(&self) -> u64
        ensures { result ≡ (limits_value self.now).result_bytes }
    {
        self.result_bytes
    }

    /// The bytes that a client may send on a connection, and on each stream of it, before more are
    /// asked for.
    pub fn window(&self) -> u32
        ensures { result ≡ (limits_value self.now).window }
    {
        self.window
    }
}
