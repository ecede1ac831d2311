// The least processor time of several runs of each kernel and of its plain loop.
ghost use Rattle.std.specs.Prelude.{◌≡◌, length};

use crate::plain;
use lanes_dm::{ByteClass, count_byte, first_of, mask_eq};
use std::io;
use std::time::{CpuClock, Duration};

const RUNS: usize = 21;

#[derive(Clone, Copy)]
struct Best {
    lanes: Duration,
    plain: Duration,
    sum: usize,
}

impl Best {
    fn new() -> Best {
        Best {
            lanes: Duration::MAX,
            plain: Duration::MAX,
            sum: 0,
        }
    }

    fn add(&mut self, lanes: Duration, plain: Duration, found: usize) {
        self.lanes = self.lanes.min(lanes);
        self.plain = self.plain.min(plain);
        self.sum = self.sum.wrapping_add(found);
    }

    // How many times the lanes are as fast as the plain loop, in tenths.
    fn tenths(&self) -> u128 {
        self.plain.as_nanos().saturating_mul(10) / self.lanes.as_nanos().max(1)
    }

    fn print<R: Eprint>(&self, rt: &R, name: &str) -> io::Result<()> {
        let (lanes, plain) = (self.lanes.as_micros(), self.plain.as_micros());
        let tenths = self.tenths();
        let (whole, part) = (tenths / 10, tenths % 10);
        eprintln!(rt;
            "{name}: {lanes} us by lanes, {plain} us by the plain loop, {whole}.{part} times (sum {})",
            self.sum
        )
    }
}

/// The four characters that a literal of N-Triples cannot hold as they are (RDF 1.1 N-Triples, section 7, STRING_LITERAL_QUOTE).
pub fn escapes() -> ByteClass {
    ByteClass::new()
        .with(b'"')
        .with(b'\\')
        .with(b'\n')
        .with(b'\r')
}

/// The 42 bytes that no IRI of N-Triples has as they are (RDF 1.1 N-Triples, section 7, IRIREF).
pub fn refused() -> ByteClass {
    let mut class = ByteClass::new();
    for b in 0..=32u8 {
        class = class.with(b);
    }
    for b in *b"<>\"{}|^`\\" {
        class = class.with(b);
    }
    class
}

// The processor time of this thread since it was `start`.
fn since<R: CpuClock>(rt: &R, start: Duration) -> io::Result<Duration> {
    Ok(rt.thread_cpu_time()?.saturating_sub(start))
}

fn time_first<R: CpuClock>(rt: &R, bytes: &[u8], class: &ByteClass) -> io::Result<Best> {
    let mut best = Best::new();
    for _ in 0..RUNS {
        let start = rt.thread_cpu_time()?;
        let place = first_of(bytes, class).unwrap_or(0);
        let lanes = since(rt, start)?;
        let start = rt.thread_cpu_time()?;
        let same = plain::first_of(bytes, class).unwrap_or(0);
        best.add(lanes, since(rt, start)?, place.wrapping_add(same));
    }
    Ok(best)
}

fn time_count<R: CpuClock>(rt: &R, bytes: &[u8]) -> io::Result<Best> {
    let mut best = Best::new();
    for _ in 0..RUNS {
        let start = rt.thread_cpu_time()?;
        let count = count_byte(bytes, b'e');
        let lanes = since(rt, start)?;
        let start = rt.thread_cpu_time()?;
        let same = plain::count_byte(bytes, b'e');
        best.add(lanes, since(rt, start)?, count.wrapping_add(same));
    }
    Ok(best)
}

fn time_mask<R: CpuClock>(rt: &R, column: &[u32], out: &mut [u8]) -> io::Result<Best>
    requires { length out.old ≡ length column.now }
{
    let mut best = Best::new();
    for _ in 0..RUNS {
        let start = rt.thread_cpu_time()?;
        mask_eq(column, 7, out);
        let lanes = since(rt, start)?;
        let first = out.first().copied().unwrap_or(0);
        let start = rt.thread_cpu_time()?;
        plain::mask_eq(column, 7, out);
        best.add(lanes, since(rt, start)?, usize::from(first));
    }
    Ok(best)
}

/// Times each kernel over this many bytes, and the mask over a column of as many bytes, and prints them on standard error.
pub fn print_times<R: CpuClock + Alloc + Eprint>(rt: &R, size: usize) -> io::Result<()> {
    let bytes = vec![in rt.alloc(); b'a'; size]?;
    time_first(rt, bytes.as_slice(), &escapes())?.print(rt, "first_of, 4 bytes")?;
    time_first(rt, bytes.as_slice(), &refused())?.print(rt, "first_of, 42 bytes")?;
    time_count(rt, bytes.as_slice())?.print(rt, "count_byte")?;
    let column = vec![in rt.alloc(); 7u32; size / 4]?;
    let mut out = vec![in rt.alloc(); 0u8; size / 4]?;
    time_mask(rt, column.as_slice(), out.as_mut_slice())?.print(rt, "mask_eq")
}
