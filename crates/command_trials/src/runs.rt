use cmd_dm::run;
use outside_dm::{
    Calls, Cut, Cuts, FileList, MemoryShelf, MemorySink, NoFaultShelf, NoFaultSink, Shelf, Sink,
};
use std::alloc::Global;

/// The call of a device that fails, counted from 1.
#[derive(Clone, Copy, Drop)]
pub enum Fault {
    /// No call fails.
    Nowhere,
    /// A load of the shelf.
    Load(u64),
    /// A store of the shelf.
    Store(u64),
    /// A put of the output, which keeps nothing of its piece.
    Put(u64),
    /// The first put of the output, which keeps so many bytes of its piece.
    Kept(u64),
    /// A put of the line.
    Line(u64),
}

/// How a run ended: the number of its status, its output, and its line.
#[derive(Drop)]
pub struct Ended {
    pub number: u8,
    pub output: Vec<u8>,
    pub line: Vec<u8>,
}

/// The call that is told as a word and a number, as `load 1`; `store`, `put`, `kept` and `line` are the others, and no text is no
/// call. None where there is no such call.
pub fn fault_of(text: &str) -> Option<Fault> {
    if text.len() == 0 {
        return Some(Fault::Nowhere);
    }
    let (device, number) = text.split_once(' ')?;
    let call = number.trim_end().parse::<u64>().ok()?;
    match device {
        "load" => Some(Fault::Load(call)),
        "store" => Some(Fault::Store(call)),
        "put" => Some(Fault::Put(call)),
        "kept" => Some(Fault::Kept(call)),
        "line" => Some(Fault::Line(call)),
        _ => None,
    }
}

/// A shelf in memory of which this load or store fails. None for want of memory.
pub fn shelf_of(alloc: Global, files: FileList, fault: Fault) -> Option<MemoryShelf> {
    let mut loads = Calls::new(alloc);
    let mut stores = Calls::new(alloc);
    match fault {
        Fault::Load(call) => loads.push(call).ok()?,
        Fault::Store(call) => stores.push(call).ok()?,
        _ => {}
    }
    Some(MemoryShelf::new(alloc, files, loads, stores))
}

// A sink in memory of which this put fails.
fn sink_of(alloc: Global, call: u64, kept: u64) -> Option<MemorySink> {
    let mut cuts = Cuts::new(alloc);
    cuts.push(Cut { call, kept }).ok()?;
    Some(MemorySink::new(alloc, cuts))
}

fn output_sink(alloc: Global, fault: Fault) -> Option<MemorySink> {
    match fault {
        Fault::Put(call) => sink_of(alloc, call, 0),
        Fault::Kept(kept) => sink_of(alloc, 1, kept),
        _ => Some(MemorySink::new(alloc, Cuts::new(alloc))),
    }
}

fn line_sink(alloc: Global, fault: Fault) -> Option<MemorySink> {
    match fault {
        Fault::Line(call) => sink_of(alloc, call, 0),
        _ => Some(MemorySink::new(alloc, Cuts::new(alloc))),
    }
}

fn words_between_bars(alloc: Global, line: &str) -> Option<Vec<String>> {
    let mut words = Vec::new(alloc);
    for word in line.split('|') {
        words.push(String::from_str(alloc, word).ok()?).ok()?;
    }
    Some(words)
}

/// The words of a command line: what bars part, where it has one, so that a word may be empty or have a space in it, and else what
/// spaces part. None for want of memory.
pub fn words_of(alloc: Global, line: &str) -> Option<Vec<String>> {
    if line.contains('|') {
        return words_between_bars(alloc, line);
    }
    let mut words = Vec::new(alloc);
    for word in line.split_whitespace() {
        words.push(String::from_str(alloc, word).ok()?).ok()?;
    }
    Some(words)
}

fn make_ended(alloc: Global, number: u8, output: &[u8], line: &[u8]) -> Option<Ended> {
    Some(Ended {
        number,
        output: Vec::from_slice(alloc, output).ok()?,
        line: Vec::from_slice(alloc, line).ok()?,
    })
}

// The number of the status of a run over these devices.
fn number_of<S: Shelf, K: Sink, D: Sink>(
    alloc: Global,
    words: &[String],
    shelf: &mut S,
    out: &mut K,
    diag: &mut D,
) -> u8 {
    run(alloc, words, shelf, out, diag).number()
}

/// Runs the words of a command line (`words_of`) over this shelf, and over sinks in memory of which this put fails. None for want of
/// memory.
pub fn run_on(alloc: Global, line: &str, shelf: &mut MemoryShelf, fault: Fault) -> Option<Ended> {
    let words = words_of(alloc, line)?;
    let mut out = output_sink(alloc, fault)?;
    let mut diag = line_sink(alloc, fault)?;
    let number = number_of(alloc, &words, shelf, &mut out, &mut diag);
    make_ended(alloc, number, out.bytes(), diag.bytes())
}

/// Runs the words of a command line over a shelf in memory and sinks, of which this call fails. None for want of memory.
pub fn run_over(alloc: Global, line: &str, files: FileList, fault: Fault) -> Option<Ended> {
    let mut shelf = shelf_of(alloc, files, fault)?;
    run_on(alloc, line, &mut shelf, fault)
}

/// Runs the words of a command line over devices that never fail. None for want of memory.
pub fn run_without_faults(alloc: Global, line: &str, files: FileList) -> Option<Ended> {
    let words = words_of(alloc, line)?;
    let mut shelf = NoFaultShelf::new(files);
    let mut out = NoFaultSink::new(alloc);
    let mut diag = NoFaultSink::new(alloc);
    let number = number_of(alloc, &words, &mut shelf, &mut out, &mut diag);
    make_ended(alloc, number, out.bytes(), diag.bytes())
}

/// The output of a run of these words. None where it doesn't end well.
pub fn output_of(alloc: Global, line: &str, files: FileList) -> Option<Vec<u8>> {
    let ended = run_over(alloc, line, files, Fault::Nowhere)?;
    if ended.number == 0 && ended.line.len() == 0 {
        Some(ended.output)
    } else {
        None
    }
}
