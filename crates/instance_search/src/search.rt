//! The instances that are sought, found by joins over the streams' domain facts.
ghost use Rattle.std.specs.Prelude.{◌≡◌, ◌≤◌, ◌-◌, [], length, Bool, IfOk, IfErr, OnOk};
ghost use Rattle.fact_join.specs.Adding.{AreAll, ComesOf};
ghost use Rattle.task_model.specs.Fit.{IsFit};
ghost use Rattle.task_model.specs.declared.stream.Stream.{Stream as StreamValue};
ghost use Rattle.task_model.specs.declared.stream.Instance.{Instance as InstanceValue};
ghost use Rattle.instance_search.specs.Found.{IsSoughtInput, AreDomainAtoms, AddsInstances, IsSoughtBelow, IsFound, AreFound};
ghost use Rattle.instance_search.specs.Readable.{IsReadableStream};

use crate::order::{Names, compare};
use fact_join::{JoinFault, Partial, Query, QueryAtom, Wanted, join};
use std::alloc::{AllocError, Global};
use task_model::{Instance, Look, Obj, Row, Stream, Task};

/// Which of the instances whose domain facts are known are sought.
pub trait Sought {
    ghost seeks: { Self → StreamValue → InstanceValue → Bool };

    /// Whether the instance, which is one of this stream, is sought.
    fn seeks(&self, stream: &Stream, instance: &Instance) -> bool
        ensures { result ≡ seeks self.now stream.now instance.now };
}

/// What the instances of one stream are sought over.
#[derive(Drop)]
struct Search<'a, L: Look, S: Sought> {
    alloc: Global,
    look: &'a L,
    sought: &'a S,
    stream: &'a Stream,
    place: u32,
}

impl<'a, L: Look, S: Sought> Wanted for Search<'a, L, S> {
    ghost use Rattle.std.specs.Prelude.{◌≤◌, length};
    ghost use Rattle.instance_search.specs.Found.{instance_at};

    ghost can_judge = { λ search inputs. length inputs ≤ 8 };

    ghost wants = { λ search inputs.
        S.seeks search.sought.now search.stream.now (instance_at search.place inputs) };

    /// Whether the instance with these inputs is sought.
    fn wants(&self, inputs: &[Obj]) -> bool {
        let inputs = match Row::new(self.alloc, inputs) {
            Ok(inputs) => inputs,
            Err(_) => unreachable!(),
        };
        let instance = Instance {
            stream: self.place,
            inputs,
        };
        self.sought.seeks(self.stream, &instance)
    }
}

/// The stream's domain facts. Fails only where memory is wanting.
fn domain_atoms(alloc: Global, stream: &Stream) -> Result<Vec<QueryAtom<'_>>, AllocError>
    ensures { IfOk result (λ atoms. AreDomainAtoms stream.now atoms.items) }
{
    let mut atoms = Vec::with_capacity(alloc, stream.domain.len())?;
    for pattern in stream.domain.as_slice() {
        atoms.push(QueryAtom {
            pred: pattern.pred,
            terms: pattern.args.as_slice(),
        })?;
    }
    Ok(atoms)
}

/// The inputs with which instances of the stream are reachable and sought, each once. Fails where
/// there are more than `most`, and where memory is wanting.
fn inputs_of<L: Look, S: Sought>(
    search: &Search<'_, L, S>,
    most: usize,
) -> Result<Vec<Row>, JoinFault>
    requires { IsReadableStream search.now.stream.now }
    ensures found { IfOk result (λ rows. AreAll (IsSoughtInput (L.known search.now.look.now)
        (S.seeks search.now.sought.now) search.now.stream.now search.now.place) rows.items) }
    ensures few { IfOk result (λ rows. length rows.items ≤ most) }
    ensures fault { IfErr result (ComesOf most (IsSoughtInput (L.known search.now.look.now)
        (S.seeks search.now.sought.now) search.now.stream.now search.now.place) []) }
{
    let atoms = domain_atoms(search.alloc, search.stream)?;
    let query = Query {
        look: search.look,
        sorts: search.stream.inputs.as_slice(),
        wanted: search,
        most,
        alloc: search.alloc,
    };
    let mut rows = Vec::new(search.alloc);
    join(&query, &Partial::new(), atoms.as_slice(), &mut rows)?;
    Ok(rows)
}

/// Adds the instances of one stream that are sought. Fails where more than `most` would stand
/// there, and where memory is wanting.
fn add_instances<L: Look, S: Sought>(
    search: &Search<'_, L, S>,
    most: usize,
    instances: &mut Vec<Instance>,
) -> Result<(), JoinFault>
    requires few { length instances.old.items ≤ most }
    requires readable { IsReadableStream search.now.stream.now }
    ensures found { OnOk result (AddsInstances (L.known search.now.look.now)
        (S.seeks search.now.sought.now) search.now.stream.now search.now.place instances.old.items
        instances.new.items) }
    ensures few { OnOk result (length instances.new.items ≤ most) }
    ensures fault { IfErr result (ComesOf (most - length instances.old.items)
        (IsSoughtInput (L.known search.now.look.now) (S.seeks search.now.sought.now)
        search.now.stream.now search.now.place) []) }
{
    let rows = inputs_of(search, most - instances.len())?;
    for inputs in rows.as_slice() {
        instances.push(Instance {
            stream: search.place,
            inputs: inputs.copy()?,
        })?;
    }
    Ok(())
}

/// The instances that are sought, stream by stream.
fn found<L: Look, S: Sought>(
    alloc: Global,
    task: &Task,
    look: &L,
    sought: &S,
    most: usize,
) -> Result<Vec<Instance>, JoinFault>
    requires { IsFit task.now }
    ensures found { IfOk result (λ instances. AreAll (IsSoughtBelow task.now.streams
        (L.known look.now) (S.seeks sought.now) (length task.now.streams)) instances.items) }
    ensures few { IfOk result (λ instances. length instances.items ≤ most) }
    ensures fault { IfErr result (ComesOf most (IsFound task.now (L.known look.now)
        (S.seeks sought.now)) []) }
{
    let mut instances = Vec::new(alloc);
    for (place, stream) in task.streams.as_slice().iter().enumerate() {
        let search = Search {
            alloc,
            look,
            sought,
            stream,
            place: place as u32,
        };
        add_instances(&search, most, &mut instances)?;
    }
    Ok(instances)
}

/// The instances that are reachable and sought, in the order of the stream's place and then of the
/// inputs, name by name and byte by byte (the order is this project's). Fails where there are more
/// than `most`, and where memory is wanting.
pub fn found_instances<L: Look, S: Sought>(
    alloc: Global,
    task: &Task,
    look: &L,
    names: &Names<'_>,
    sought: &S,
    most: usize,
) -> Result<Vec<Instance>, JoinFault>
    requires fit { IsFit task.now }
    requires names { names.now ≡ (L.known look.now).names }
    ensures found { IfOk result (λ instances. AreFound task.now (L.known look.now)
        (S.seeks sought.now) instances.items) }
    ensures few { IfOk result (λ instances. length instances.items ≤ most) }
    ensures fault { IfErr result (ComesOf most (IsFound task.now (L.known look.now)
        (S.seeks sought.now)) []) }
{
    let mut instances = found(alloc, task, look, sought, most)?;
    instances.sort_by(|a, b| compare(names, a, b))?;
    Ok(instances)
}
