//! A host that writes down which children were started, by which words, and counts the other calls; or
//! it writes down each call, with its answer.
ghost use Rattle.std.specs.Prelude.{◌≡◌, ℕ};

use io_world::{Host, HostFault};
use std::alloc::{AllocError, Global};

/// The most bytes that are written down.
const NOTES: usize = 400;

/// What is written down of calls: bytes, of which those past the first 400 are lost.
#[derive(Drop)]
struct Notes {
    /// Each call is written down, or starts alone.
    is_whole: bool,
    bytes: [u8; NOTES],
    used: usize,
}

impl Notes {
    fn new(is_whole: bool) -> Notes {
        Notes {
            is_whole,
            bytes: [0; NOTES],
            used: 0,
        }
    }

    fn text(&self) -> &[u8] {
        self.bytes.get(..self.used).unwrap_or(&[])
    }

    fn push(&mut self, byte: u8) {
        if let Some(place) = self.bytes.get_mut(self.used) {
            *place = byte;
            self.used = self.used.saturating_add(1);
        }
    }

    fn push_word(&mut self, word: &[u8]) {
        for byte in word {
            self.push(*byte);
        }
    }

    /// The name of a call, and the child's number.
    fn push_call(&mut self, name: &[u8], child: u8) {
        self.push_word(name);
        self.push(b' ');
        if child > 9 {
            self.push(b'1');
        }
        self.push(b'0'.saturating_add(child % 10));
    }

    /// The words of a start, each behind a space.
    fn push_words(&mut self, argv: &[String]) {
        for word in argv {
            self.push(b' ');
            self.push_word(word.as_bytes());
        }
    }

    /// A text behind a space, with `~` in place of a line feed.
    fn push_text(&mut self, text: &[u8]) {
        self.push(b' ');
        for byte in text {
            self.push(if *byte == b'\n' { b'~' } else { *byte });
        }
    }

    /// Why a call wasn't done, behind a space.
    fn push_fault(&mut self, fault: Option<HostFault>) {
        match fault {
            Some(HostFault::Failed) => self.push_word(b" failed"),
            Some(HostFault::Memory) => self.push_word(b" memory"),
            None => {}
        }
    }

    /// Writes a start down.
    fn note_start(&mut self, child: u8, argv: &[String], fault: Option<HostFault>) {
        self.push_call(b"start", child);
        self.push_words(argv);
        if self.is_whole {
            self.push_fault(fault);
        }
        self.push(b'\n');
    }

    /// Writes another call down, with the bytes that were written or read, where each is.
    fn note(&mut self, name: &[u8], child: u8, bytes: &[u8], fault: Option<HostFault>) {
        if !self.is_whole {
            return;
        }
        self.push_call(name, child);
        if !bytes.is_empty() {
            self.push_text(bytes);
        }
        self.push_fault(fault);
        self.push(b'\n');
    }
}

/// A host that answers as another one does, and writes down the starts and counts the other calls, or
/// writes down each call.
#[derive(Drop)]
pub(crate) struct NotingHost<H> {
    host: H,
    notes: Notes,
    writes: usize,
    reads: usize,
    stops: usize,
}

impl<H: Host> NotingHost<H> {
    /// The same children as this host, of which no call was written down. Each call is written
    /// down, or starts alone.
    pub(crate) fn new(host: H, is_whole: bool) -> NotingHost<H>
        ensures { (k : ℕ) → ⟦<NotingHost<H> as Host>⟧.running result k ≡ H.running host k }
    {
        NotingHost {
            host,
            notes: Notes::new(is_whole),
            writes: 0,
            reads: 0,
            stops: 0,
        }
    }

    /// The calls so far: a line for each start, with the child's number and its words, and one that
    /// says how often a child was written to, read from and stopped. Or a line for each call: the
    /// child's number, the words, the bytes that were written or read, and why it failed.
    pub(crate) fn calls(&self, alloc: Global) -> Result<String, AllocError> {
        let starts = str::from_utf8(self.notes.text()).unwrap_or("");
        if self.notes.is_whole {
            return String::from_str(alloc, starts);
        }
        let writes = self.writes;
        let reads = self.reads;
        let stops = self.stops;
        format!(in alloc; "{starts}writes {writes} reads {reads} stops {stops}\n")
    }
}

impl<H: Host> Host for NotingHost<H> {
    ghost faults = { λ s. H.faults s.host };

    ghost last = { H.last };

    ghost running = { λ s. H.running s.host };

    ghost spoken = { λ s. H.spoken s.host };

    ghost log = { λ s. H.log s.host };

    ghost spells = { λ s child runs. H.spells s.host child runs };

    ghost high = { H.high };

    ghost leads = { λ old new memory. H.leads old.host new.host memory };

    ghost stays = { λ s. H.stays s.host };

    ghost chains = { λ a b c m first second. H.chains a.host b.host c.host m first second };

    ghost ends = { λ a b c m first second. H.ends a.host b.host c.host m first second };

    fn start(&mut self, child: u8, argv: &[String]) -> Result<(), HostFault> {
        let answer = self.host.start(child, argv);
        self.notes.note_start(child, argv, answer.err());
        answer
    }

    fn write(&mut self, child: u8, bytes: &[u8]) -> Result<usize, HostFault> {
        self.writes = self.writes.saturating_add(1);
        let answer = self.host.write(child, bytes);
        self.notes.note(b"write", child, bytes, answer.err());
        answer
    }

    fn read(&mut self, child: u8, room: &mut [u8]) -> Result<usize, HostFault> {
        self.reads = self.reads.saturating_add(1);
        let answer = self.host.read(child, room);
        let count = answer.unwrap_or(0);
        self.notes.note(
            b"read",
            child,
            room.get(..count).unwrap_or(&[]),
            answer.err(),
        );
        answer
    }

    fn stop(&mut self, child: u8) -> Result<(), HostFault> {
        self.stops = self.stops.saturating_add(1);
        let answer = self.host.stop(child);
        self.notes.note(b"stop", child, &[], answer.err());
        answer
    }

    fn faults(&self) -> u64 {
        self.host.faults()
    }
}
