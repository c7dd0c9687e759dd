//! The notes of what was answered, and what they say of an instance.
ghost use Rattle.std.specs.Prelude.{◌≡◌};
ghost use Rattle.task_model.specs.Streams.{is_test as tests};
ghost use Rattle.task_model.specs.declared.limits.TheConstants.{LARGEST_COUNT};

use crate::due::{Due, QueueFault};
use crate::level::level;
use fact_store::Facts;
use indexmap::IndexMap;
use instance_search::{is_reachable, stream_of};
use std::alloc::{AllocError, Global};
use std::hash::BuildHasherDefault;
use std::marker::Model;
use task_model::{Instance, NumberHasher, Stream, Task};

/// What an instance was told, by its place among those that were told something: a tuple, or that
/// nothing more comes.
#[derive(Drop)]
struct Noted {
    place: usize,
    ended: bool,
}

/// What the notes say of one instance.
#[derive(Clone, Copy)]
struct Tally {
    yields: u32,
    ended: bool,
}

/// What the notes say, by instances.
type Tallies = IndexMap<Instance, Tally, BuildHasherDefault<NumberHasher>>;

/// The answers that were noted, one after another. It is seen as the list of these notes.
#[derive(Drop)]
pub struct Queue {
    notes: Vec<Noted>,
    tallies: Tallies,
    alloc: Global,
}

impl Model for Queue {
    ghost use Rattle.std.specs.Prelude.{List};
    ghost use Rattle.task_model.specs.Streams.{Note};
    ghost use Rattle.instance_queue.specs.Tallies.{coded_notes};

    ghost Value = { List Note };

    ghost coded = { coded_notes };

    ghost use Rattle.indexmap.specs.IndexMap.{keys};
    ghost use Rattle.instance_queue.specs.Notes.{notes_in, AreTallied, ArePlaced};

    ghost view = { λ q. notes_in (keys q.tallies) q.notes.items };

    ghost invariant = { λ q. AreTallied q.tallies (notes_in (keys q.tallies) q.notes.items)
        × ArePlaced (keys q.tallies) q.notes.items };
}

/// Whether the stream can only say yes, and that once.
fn is_test(stream: &Stream) -> bool
    ensures { result ≡ tests stream.now }
{
    stream.outputs.is_empty() && stream.worth.is_none()
}

impl Queue {
    ghost use Rattle.std.specs.Prelude.{◌<◌, ◌++◌, ◌∷◌, [], IfOk, IfErr, OnOk, OnErr, false};
    ghost use Rattle.task_model.specs.Fit.{IsFit};
    ghost use Rattle.task_model.specs.Streams.{Note, Yielded, Ended, yields_of, is_finished, at_stream, is_due as due, is_reachable as reaches};
    ghost use Rattle.instance_queue.specs.Notes.{tally_of, note_of};
    ghost use Rattle.instance_queue.specs.Level.{AreDueInTurn, HasLevelCause};

    /// The queue in which nothing is noted, with room for an instance of each stream. Fails only
    /// where memory is wanting.
    pub fn new(alloc: Global, task: &Task) -> Result<Queue, AllocError>
        ensures { IfOk result (λ queue. queue ≡ []) }
    {
        let room = task.streams.len();
        let tallies = IndexMap::with_capacity_and_hasher(alloc, room, BuildHasherDefault::new())?;
        Ok(Queue {
            notes: Vec::new(alloc),
            tallies,
            alloc,
        })
    }

    /// What the notes say of an instance.
    fn tally(&self, instance: &Instance) -> Tally
        ensures { result ≡ tally_of self.now instance.now }
    {
        match self.tallies.get(instance) {
            Some(tally) => *tally,
            None => Tally {
                yields: 0,
                ended: false,
            },
        }
    }

    /// Puts a note of an instance behind the others, after which it has this tally.
    fn note(&mut self, instance: &Instance, ended: bool, tally: Tally) -> Result<(), AllocError>
        requires { tally ≡ tally_of (self.old ++ note_of ended instance.now ∷ []) instance.now }
        ensures ok { OnOk result (self.new ≡ self.old ++ note_of ended instance.now ∷ []) }
        ensures err { OnErr result (self.new ≡ self.old) }
    {
        let key = instance.copy()?;
        self.notes.reserve(1)?;
        let (place, _) = self.tallies.insert_full(key, tally)?;
        self.notes.push(Noted { place, ended })?;
        Ok(())
    }

    /// Notes that an instance gave a tuple; it has given fewer than 2^32 - 1 before. Fails only
    /// where memory is wanting, and leaves all as it was then.
    pub fn note_got(&mut self, instance: &Instance) -> Result<(), AllocError>
        requires { yields_of self.old instance.now < LARGEST_COUNT }
        ensures ok { OnOk result (self.new ≡ self.old ++ Yielded instance.now ∷ []) }
        ensures err { OnErr result (self.new ≡ self.old) }
    {
        let tally = self.tally(instance);
        self.note(
            instance,
            false,
            Tally {
                yields: tally.yields + 1,
                ended: tally.ended,
            },
        )
    }

    /// Notes that an instance ended, or, of a cost stream, that it gave its value. Fails only where
    /// memory is wanting, and leaves all as it was then.
    pub fn note_end(&mut self, instance: &Instance) -> Result<(), AllocError>
        ensures ok { OnOk result (self.new ≡ self.old ++ Ended instance.now ∷ []) }
        ensures err { OnErr result (self.new ≡ self.old) }
    {
        let tally = self.tally(instance);
        self.note(
            instance,
            true,
            Tally {
                yields: tally.yields,
                ended: true,
            },
        )
    }

    /// How many tuples the instance has given.
    pub fn yields(&self, instance: &Instance) -> u32
        ensures { result ≡ yields_of self.now instance.now }
    {
        self.tally(instance).yields
    }

    /// Whether the instance, which is one of this stream, has finished.
    pub(crate) fn is_finished(&self, stream: &Stream, instance: &Instance) -> bool
        ensures { result ≡ is_finished stream.now self.now instance.now }
    {
        let tally = self.tally(instance);
        tally.ended || is_test(stream) && tally.yields > 0
    }

    /// Whether nothing more comes of the instance: it has ended, or it is one of a test, a stream
    /// without outputs or a value, and has yielded. Of a stream that the task hasn't nothing has
    /// finished.
    pub fn finished(&self, task: &Task, instance: &Instance) -> bool
        ensures { result ≡ at_stream task.now instance.now.stream false
            (λ stream. is_finished stream self.now instance.now) }
    {
        match stream_of(task, instance.stream) {
            Some(stream) => self.is_finished(stream, instance),
            None => false,
        }
    }

    /// Whether the instance's stream is one of the task's, its inputs have their types, and its
    /// domain facts are known (PDDLStream 2020). It takes no memory.
    pub fn reachable(&self, task: &Task, facts: &Facts, instance: &Instance) -> bool
        requires { IsFit task.now }
        ensures { result ≡ at_stream task.now instance.now.stream false
            (λ stream. reaches stream facts.now.known instance.now) }
    {
        match stream_of(task, instance.stream) {
            Some(stream) => is_reachable(self.alloc, stream, facts, instance),
            None => false,
        }
    }

    /// Whether the instance may be asked for its next tuple: its stream is one of the task's, it is
    /// reachable and it hasn't finished (PDDLStream 2020; what finishes an instance is this
    /// project's). It takes no memory.
    pub fn is_due(&self, task: &Task, facts: &Facts, instance: &Instance) -> bool
        requires { IsFit task.now }
        ensures { result ≡ due task.now facts.now.known self.now instance.now }
    {
        match stream_of(task, instance.stream) {
            Some(stream) => {
                is_reachable(self.alloc, stream, facts, instance)
                    && !self.is_finished(stream, instance)
            }
            None => false,
        }
    }

    /// The asks that are due: the instances that are reachable and unfinished, in the order of the
    /// stream's place and then of the inputs, name by name and byte by byte, each with its turn.
    /// Fails where there are more than 1,000,000, and where memory is wanting.
    pub fn next_level(&self, task: &Task, facts: &Facts) -> Result<Vec<Due>, QueueFault>
        requires { IsFit task.now }
        ensures due { IfOk result (λ dues. AreDueInTurn task.now facts.now.known self.now
            dues.items) }
        ensures fault { IfErr result (HasLevelCause task.now facts.now.known self.now) }
    {
        level(self.alloc, self, task, facts)
    }
}
