//! What a row says so far.
use crate::replies::Replies;
use crate::talk::Talk;
use crate::texts::Texts;
use crate::word::{bytes_of, copies_of, first_word, number, numbers};
use io_world::{Files, RealFiles};
use std::alloc::{AllocError, Global};

/// The most bytes of a real file.
const FILE_BYTES: usize = 1 << 20;

/// What the lines of text in a row belong to.
#[derive(Clone, Copy)]
enum Part {
    /// The open file.
    File,
    /// What stands in place of a line of it.
    Line,
    /// The text of which copies are added to it.
    Unit,
    /// What a child says.
    Child,
    /// The line that answers a request.
    Reply,
}

/// On whom calls fail.
#[derive(Clone, Copy)]
pub(crate) enum Callee {
    Children,
    Files,
    Sink,
}

/// How often the run is done.
#[derive(Clone, Copy)]
pub(crate) enum Series {
    Once,
    /// For each of some numbers, with at most so many bytes a read.
    Pieces,
    /// Over each front of the open file.
    Fronts,
    /// For each of some numbers, where the call of this number fails.
    Calls(Callee),
}

/// What is printed of the calls on the children.
#[derive(Clone, Copy, PartialEq, Eq)]
pub(crate) enum Log {
    None,
    /// Each start, and how many other calls there were.
    Starts,
    /// Each call.
    Calls,
}

/// A row: a command with its files, what its children say, which calls of the host and of the sink
/// fail, how often the run is done, and what of it is printed.
#[derive(Drop)]
pub(crate) struct Draft {
    pub(crate) alloc: Global,
    part: Part,
    pub(crate) words: Vec<String>,
    pub(crate) texts: Texts,
    pub(crate) talk: Talk,
    /// How the children answer that answer by a list of requests.
    pub(crate) replies: Replies,
    pub(crate) sink_fails: Vec<u64>,
    pub(crate) series: Series,
    numbers: Vec<usize>,
    /// `..` stands in place of what a run shares with the one in which no call fails.
    pub(crate) is_beside_whole: bool,
    /// The children are real ones.
    pub(crate) is_real: bool,
    /// What is printed of the calls on the children.
    pub(crate) log: Log,
    /// What is written is printed up to the first line that begins with this word.
    pub(crate) until: String,
    /// How many lines say nothing.
    pub(crate) mute: usize,
}

impl Draft {
    /// Nothing is said.
    pub(crate) fn new(alloc: Global) -> Draft {
        Draft {
            alloc,
            part: Part::File,
            words: Vec::new(alloc),
            texts: Texts::new(alloc),
            talk: Talk::new(alloc),
            replies: Replies::new(alloc),
            sink_fails: Vec::new(alloc),
            series: Series::Once,
            numbers: Vec::new(alloc),
            is_beside_whole: false,
            is_real: false,
            log: Log::None,
            until: String::new(alloc),
            mute: 0,
        }
    }

    /// Takes a line of the row. A line of a text begins with `|`, and with `\` where it has no line
    /// feed; with `.` where it gives bytes by their numbers, and with `*` where it gives a text so
    /// many times.
    pub(crate) fn take(&mut self, rt: &HostRuntime, line: &[u8]) -> Result<(), AllocError> {
        let says = match line {
            [b'|', text @ ..] => self.add(text)? && self.add(b"\n")?,
            [b'\\', text @ ..] => self.add(text)?,
            [b'.', b' ', numbers @ ..] => self.add_bytes(numbers)?,
            [b'*', b' ', copies @ ..] => self.add_copies(copies)?,
            _ => self.say(rt, line)?,
        };
        if !says {
            self.mute = self.mute.saturating_add(1);
        }
        Ok(())
    }

    /// Puts bytes behind those of the part that is open, and answers whether one is.
    fn add(&mut self, bytes: &[u8]) -> Result<bool, AllocError> {
        match self.part {
            Part::File => self.texts.add(bytes),
            Part::Line => self.texts.add_changed(bytes),
            Part::Unit => self.texts.add_unit(bytes),
            Part::Child => self.talk.add(bytes),
            Part::Reply => self.replies.add(bytes),
        }
    }

    /// Puts the bytes of these numbers behind those of the part that is open.
    fn add_bytes(&mut self, numbers: &[u8]) -> Result<bool, AllocError> {
        let bytes = bytes_of(self.alloc, numbers)?;
        self.add(bytes.as_slice())
    }

    /// Puts a text so many times behind those of the part that is open.
    fn add_copies(&mut self, copies: &[u8]) -> Result<bool, AllocError> {
        let bytes = copies_of(self.alloc, copies)?;
        self.add(bytes.as_slice())
    }

    /// Takes a line of a key, and answers whether there is such a key.
    fn say(&mut self, rt: &HostRuntime, line: &[u8]) -> Result<bool, AllocError> {
        let (key, rest) = first_word(line);
        match key {
            b"load" => self.load(rt, rest),
            _ => Ok(
                self.say_file(key, rest)? || self.say_child(key, rest)? || self.say_run(key, rest)?,
            ),
        }
    }

    /// The keys of the files.
    fn say_file(&mut self, key: &[u8], rest: &[u8]) -> Result<bool, AllocError> {
        match key {
            b"file" => {
                self.part = Part::File;
                self.texts.begin_file(rest)?;
            }
            b"line" => {
                self.part = Part::Line;
                self.texts.begin_change(number(rest))?;
            }
            b"unit" => {
                self.part = Part::Unit;
                self.texts.begin_unit();
            }
            b"repeat" => {
                self.part = Part::File;
                return self.texts.repeat(number(rest));
            }
            b"fill" => return self.texts.fill(number(rest)),
            _ => return Ok(false),
        }
        Ok(true)
    }

    /// Opens the file of this path, with what the real file of this path has. Answers whether it
    /// could be read.
    fn load(&mut self, rt: &HostRuntime, path: &[u8]) -> Result<bool, AllocError> {
        let name = String::from_utf8_lossy(self.alloc, path)?;
        let Ok(text) = RealFiles::new(self.alloc, rt).read(name.as_str(), FILE_BYTES) else {
            return Ok(false);
        };
        self.part = Part::File;
        self.texts.begin_file(path)?;
        self.texts.add(text.as_slice())
    }

    /// The keys of the children.
    fn say_child(&mut self, key: &[u8], rest: &[u8]) -> Result<bool, AllocError> {
        match key {
            b"child" => {
                self.part = Part::Child;
                self.talk.begin_child(number(rest))?;
            }
            b"life" => return self.talk.begin_life(),
            b"needs" => return self.talk.add_need(rest),
            b"reply" => {
                self.part = Part::Reply;
                self.replies.begin(rest)?;
            }
            b"host" => self.fail(Callee::Children, number(rest))?,
            b"real" => self.is_real = true,
            _ => return Ok(false),
        }
        Ok(true)
    }

    /// The keys of the run.
    fn say_run(&mut self, key: &[u8], rest: &[u8]) -> Result<bool, AllocError> {
        match key {
            b"words" => self.set_words(rest)?,
            b"word" => self.add_word(rest)?,
            b"files" => self.fail(Callee::Files, number(rest))?,
            b"sink" => self.fail(Callee::Sink, number(rest))?,
            b"piece" => {
                self.series = Series::Pieces;
                self.numbers = numbers(self.alloc, rest)?;
            }
            b"fronts" => self.series = Series::Fronts,
            b"each" => return self.fail_each(rest),
            b"beside" => self.is_beside_whole = true,
            b"log" => self.log = Log::Starts,
            b"calls" => self.log = Log::Calls,
            b"until" => self.until = String::from_utf8_lossy(self.alloc, rest)?,
            _ => return Ok(false),
        }
        Ok(true)
    }

    /// The call of this number, from 0, fails.
    fn fail(&mut self, callee: Callee, call: usize) -> Result<(), AllocError> {
        match callee {
            Callee::Children => self.talk.fail(call),
            Callee::Files => self.texts.fail(call),
            Callee::Sink => {
                self.sink_fails.push(call as u64)?;
                Ok(())
            }
        }
    }

    /// The run is done once for each number from 0 to the last, and the call of this number fails:
    /// `host LAST`, `files LAST`, `sink LAST`. Answers whether there are such calls.
    fn fail_each(&mut self, words: &[u8]) -> Result<bool, AllocError> {
        let (callee, last) = first_word(words);
        self.series = match callee {
            b"host" => Series::Calls(Callee::Children),
            b"files" => Series::Calls(Callee::Files),
            b"sink" => Series::Calls(Callee::Sink),
            _ => return Ok(false),
        };
        self.numbers = (0..number(last).saturating_add(1)).collect(self.alloc)?;
        Ok(true)
    }

    /// The words of the command are these, parted by spaces.
    fn set_words(&mut self, words: &[u8]) -> Result<(), AllocError> {
        self.words.clear();
        for word in words.split(|byte| *byte == b' ') {
            self.add_word(word)?;
        }
        Ok(())
    }

    /// One word more, which may have spaces.
    fn add_word(&mut self, word: &[u8]) -> Result<(), AllocError> {
        self.words.push(String::from_utf8_lossy(self.alloc, word)?)?;
        Ok(())
    }

    /// The numbers by which the run is done, once for each.
    pub(crate) fn numbers(&self) -> Result<Vec<usize>, AllocError> {
        match self.series {
            Series::Once => Ok(vec![in self.alloc; 0]?),
            Series::Pieces | Series::Calls(_) => self.numbers.clone(),
            Series::Fronts => (0..self.texts.open_len()).collect(self.alloc),
        }
    }

    /// The run is the one of this number.
    pub(crate) fn set_number(&mut self, number: usize) -> Result<(), AllocError> {
        match self.series {
            Series::Once => {}
            Series::Pieces => self.talk.cut(number)?,
            Series::Fronts => self.texts.cut(number),
            Series::Calls(callee) => self.fail(callee, number)?,
        }
        Ok(())
    }
}
