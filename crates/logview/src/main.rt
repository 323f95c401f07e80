// Reads a kept log on standard input and tells, line by line, what each line asks for or why it does not read.
#![tactic(auto)]

ghost use Rattle.std.specs.Prelude.{◌≡◌, is_ok, IfOk};
ghost use Rattle.terms.specs.Refusals.{ok_as};
ghost use Rattle.frames.specs.Held.{content_of};
ghost use Rattle.frames.specs.Reading.{read_answer};
ghost use Rattle.logview.specs.Summaries.{none, summary, with_line};

use anyhow::anyhow;
use frames::{Frame, Kind, LineFault, Lines, Room, read_line};
use std::io;
use std::io::Read;
use std::marker::Model;
use wording::{Counts, KindWords, LineWords, is_line_of, line_kind};

// A line of the log, and what it was read as.
#[derive(Clone, Copy)]
struct ReadLine<'log, 'room> {
    line: &'log [u8],
    reading: Result<Frame<'room>, LineFault>,
    ghost read: { ok_as content_of reading ≡ read_answer line.now },
}

impl ReadLine<'_, '_> {
    // Whether the line reads, and what was read is written as that line again.
    fn is_written_back(self) -> bool
        ensures { result ≡ is_ok (read_answer self.entry.line.now) }
    {
        self.reading.is_ok_and(|frame| is_line_of(frame, self.line))
    }
}

// What was seen of a whole log.
#[derive(Drop)]
struct Seen {
    lines: usize,
    counts: Counts,
    // How many lines are, character by character, what the library writes for them.
    written_back: usize,
}

impl Model for Seen {
    ghost use Rattle.logview.specs.Summaries.{Summary};

    ghost Value = { Summary };

    ghost view = { λ seen. record { lines = seen.lines; counts = seen.counts; back = seen.written_back } };
}

impl Seen {
    fn new() -> Seen
        ensures { result ≡ none }
    {
        Seen {
            lines: 0,
            counts: Counts::new(),
            written_back: 0,
        }
    }

    // Counts a line that was read.
    fn note(&mut self, line: ReadLine<'_, '_>)
        ensures { self.new ≡ with_line self.old line.entry.line.now }
    {
        self.lines = self.lines.saturating_add(1);
        self.counts.note(line_kind(line.reading));
        if line.is_written_back() {
            self.written_back = self.written_back.saturating_add(1);
        }
    }
}

// Tells each line, and counts.
fn tell_lines(rt: &impl Print, log: &[u8]) -> io::Result<Seen>
    ensures { IfOk result (λ s. s ≡ summary log.now) }
{
    let mut seen = Seen::new();
    let mut room = Room::new();
    for line in Lines::new(log) {
        let reading = read_line(line, &mut room);
        seen.note(ReadLine { line, reading });
        rt.println(LineWords {
            number: seen.lines,
            reading,
        })?;
    }
    Ok(seen)
}

// Tells the counts, and whether every line that reads is written back as it was.
fn tell_counts(rt: &impl Print, seen: &Seen) -> anyhow::Result<()> {
    println!(rt; "lines: {}", seen.lines)?;
    for kind in Kind::ALL {
        println!(rt;
            "  {}: {}",
            KindWords(Some(kind)),
            seen.counts.of(Some(kind))
        )?;
    }
    let refused = seen.counts.of(None);
    println!(rt; "  {}: {refused}", KindWords(None))?;
    println!(rt; "written back as they were: {}", seen.written_back)?;
    if seen.written_back.saturating_add(refused) < seen.lines {
        return Err(anyhow!("a line that reads is not written back as it was"));
    }
    Ok(())
}

fn main(rt: HostRuntime) -> anyhow::Result<()> {
    let mut log = Vec::new(rt.alloc());
    rt.stdin().read_to_end(&mut log)?;
    let seen = tell_lines(&rt, log.as_slice())?;
    tell_counts(&rt, &seen)
}
