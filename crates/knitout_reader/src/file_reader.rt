//! A file whose lines come some at a time.
ghost use Rattle.std.specs.Prelude.{◌≡◌, ◌≤◌, ◌++◌, [], ℕ, List, length, IfErr, IfOk, OnOk};
ghost use Rattle.knit_base.specs.Lines.{lines_of};
ghost use Rattle.line_cutter.specs.Cut.{IsFirstBadBehind};
ghost use Rattle.knitout_reader.specs.FileLines.{BeginBody, EntersText, HasReadFront, HasReadLines, HasRefusedHead, IsReadFile};
ghost use Rattle.knitout_reader.specs.FileLines.{ReadsHead, ReadsWholeFront, StandsBefore};

use crate::file_work::FileWork;
use crate::head::{Head, HeadFault};
use crate::head_reader::HeadReader;
use knit_base::NoMemory;
use line_cutter::{CutFault, LineTaker, count_lines, line_at};
use std::alloc::Global;
use std::mem;

/// A file whose lines come some at a time: its head is read, and the lines of its body go to the work. Behind a head that is refused
/// nothing is done with the lines but to look whether they are good.
#[derive(Drop)]
pub struct FileReader<W> {
    work: W,
    stage: Stage,
    lines: u32,
}

/// How far a file is read.
#[derive(Drop)]
enum Stage {
    /// All its lines so far are of the head.
    InHead(HeadReader),

    /// Lines of the body were taken.
    InBody(Head),

    /// The head is refused.
    Refused(HeadFault),
}

/// A file that was read to its end.
#[derive(Drop)]
pub struct ReadFile<W> {
    pub head: Head,
    /// How many lines it has, those of the head among them.
    pub lines: u32,
    pub work: W,
}

impl<W: FileWork> FileReader<W> {
    /// Before the first line, with a work that has seen none.
    pub fn new(work: W) -> FileReader<W>
        requires none { W.saw [] work work }
        ensures none { HasReadLines W W.saw W.took [] result result }
        ensures work { result.work ≡ work }
    {
        FileReader {
            work,
            stage: Stage::InHead(HeadReader::new()),
            lines: 0,
        }
    }

    /// The end of the file. A head that is refused is told by the first refusal that holds, and `NoMemory` may come with any file: where
    /// nothing stands behind the head, the work begins the body here.
    pub fn finish(self, alloc: Global) -> Result<ReadFile<W>, HeadFault>
        requires few { self.lines ≤ 33554432 }
        requires reading { (start : FileReader W) × (lines : List (List ℕ)) × HasReadLines W W.saw W.took lines start self }
        ensures file { IfOk result (λ file. (start : FileReader W) (lines : List (List ℕ)) → HasReadLines W W.saw W.took lines start self
            → IsReadFile W W.took lines start.work file) }
        ensures fault { IfErr result (λ fault. (start : FileReader W) (lines : List (List ℕ)) → HasReadLines W W.saw W.took lines start self
            → HasRefusedHead lines fault) }
    {
        let FileReader {
            mut work,
            stage,
            lines,
        } = self;
        match stage {
            Stage::InHead(reader) => {
                let head = reader.finish()?;
                work.begin(alloc, &head)?;
                Ok(ReadFile { head, lines, work })
            }
            Stage::InBody(head) => Ok(ReadFile { head, lines, work }),
            Stage::Refused(fault) => Err(fault),
        }
    }

    // Takes the lines that go on with the head, and says where the first other line begins, or no line.
    fn take_head(&mut self, alloc: Global, text: &[u8]) -> Result<usize, CutFault>
        requires size { length text.now ≤ 16777216 }
        requires few { self.old.lines ≤ 16777216 }
        requires reading { (start : FileReader W) × (lines : List (List ℕ)) × HasReadLines W W.saw W.took lines start self.old }
        ensures ok { IfOk result (λ next. (start : FileReader W) (lines : List (List ℕ)) → HasReadLines W W.saw W.took lines start self.old
            → EntersText W W.saw W.took lines text.now next start self.new) }
        ensures err { IfErr result (IsFirstBadBehind self.old.lines (lines_of text.now)) }
    {
        let Stage::InHead(reader) = &mut self.stage else {
            return Ok(0);
        };
        let (count, start) = take_front(alloc, text, self.lines, reader, &mut self.work)?;
        self.lines += count;
        if start >= text.len() {
            return Ok(start);
        }
        let reader = mem::replace(reader, HeadReader::new());
        self.stage = begin_body(alloc, reader, &mut self.work)?;
        Ok(start)
    }

    // Takes these lines, the first of which isn't of the head.
    fn take_behind(&mut self, alloc: Global, text: &[u8]) -> Result<(), CutFault>
        requires size { length text.now ≤ 16777216 }
        requires few { self.old.lines ≤ 33554432 }
        requires reading { (start : FileReader W) × (lines : List (List ℕ))
            × HasReadFront W W.saw W.took lines (lines_of text.now) start self.old }
        ensures ok { OnOk result ((start : FileReader W) (lines : List (List ℕ))
            → HasReadFront W W.saw W.took lines (lines_of text.now) start self.old
            → HasReadLines W W.saw W.took (lines ++ lines_of text.now) start self.new) }
        ensures err { IfErr result (IsFirstBadBehind self.old.lines (lines_of text.now)) }
    {
        let before = self.lines;
        match &self.stage {
            Stage::InHead(_) => {}
            Stage::InBody(head) => self.lines += self.work.take_body(alloc, head, text, before)?,
            Stage::Refused(_) => self.lines += count_lines(text, before)?,
        }
        Ok(())
    }
}

impl<W: FileWork> LineTaker for FileReader<W> {
    ghost took = { HasReadLines W W.saw W.took };

    ghost count = { λ reader. reader.lines };

    fn take_lines(&mut self, alloc: Global, text: &[u8]) -> Result<(), CutFault> {
        let start = self.take_head(alloc, text)?;
        if start >= text.len() {
            return Ok(());
        }
        self.take_behind(alloc, &text[start..])
    }

    ghost counted = { λ lines start now has. has.counted };

    ghost good = { λ lines start now has. has.good };
}

// Takes the lines of the text that go on with the head, before which the file has so many. What is told is how many they are, and where
// the next line begins.
fn take_front<W: FileWork>(
    alloc: Global,
    text: &[u8],
    before: u32,
    reader: &mut HeadReader,
    work: &mut W,
) -> Result<(u32, usize), CutFault>
    requires size { length text.now ≤ 16777216 }
    requires few { before ≤ 16777216 }
    requires reading { (start : W) × (lines : List (List ℕ)) × (length lines ≡ before) × ReadsHead W W.saw lines start work.old reader.old }
    ensures ok { IfOk result (λ front. ReadsWholeFront W W.saw text.now front.0 front.1 reader.old reader.new work.old work.new) }
    ensures err { IfErr result (IsFirstBadBehind before (lines_of text.now)) }
{
    let mut count = 0;
    let mut start = 0;
    'reading: while start < text.len() {
        let (line, next) = line_at(text, start, before + count + 1)?;
        if !reader.take(alloc, line)? {
            return Ok((count, start));
        }
        work.see(line)?;
        count += 1;
        start = next;
    }
    Ok((count, start))
}

// Behind the last line of the head, where others stand behind it.
fn begin_body<W: FileWork>(
    alloc: Global,
    reader: HeadReader,
    work: &mut W,
) -> Result<Stage, NoMemory>
    requires few { reader.lines ≤ 33554432 }
    requires reading { (start : W) × (lines : List (List ℕ)) × ReadsHead W W.saw lines start work.old reader }
    ensures { IfOk result (λ stage. (start : W) (lines next : List (List ℕ)) → ReadsHead W W.saw lines start work.old reader
        → BeginBody next → StandsBefore W W.saw W.took lines next start work.new stage) }
{
    match reader.finish() {
        Ok(head) => {
            work.begin(alloc, &head)?;
            Ok(Stage::InBody(head))
        }
        Err(fault) => Ok(Stage::Refused(fault)),
    }
}
