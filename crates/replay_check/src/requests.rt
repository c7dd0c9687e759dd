//! Whether a request is the one that is due.
ghost use Rattle.std.specs.Prelude.{◌≡◌, map};
ghost use Rattle.std.specs.Cmp.Lexicographic.{pointwise};
ghost use Rattle.task_model.specs.Known.{same_numbers};
ghost use Rattle.task_model.specs.Streams.{name_at as name_in};
ghost use Rattle.gen_lines.specs.Request.{stream_name as name_of_stream};
ghost use Rattle.replay_check.specs.Talks.{is_same_request};

use instance_queue::Queue;
use legal_report::Request;
use task_model::{Instance, Name, Obj, Task};

/// The name of an object, or no bytes where the table has none.
fn name_at(names: &[Name], object: Obj) -> &[u8]
    ensures { result.now ≡ name_in names.now object }
{
    match names.get(object.place() as usize) {
        Some(name) => name.bytes(),
        None => &[],
    }
}

/// The name of a stream, or no bytes where the task has none.
fn stream_name(task: &Task, stream: u32) -> &[u8]
    ensures { result.now ≡ name_of_stream task.now stream }
{
    match task.streams.as_slice().get(stream as usize) {
        Some(stream) => stream.name.bytes(),
        None => &[],
    }
}

/// Whether the objects have these names, one by one.
fn have_names(names: &[Name], objects: &[Obj], shown: &[Name]) -> bool
    ensures { result ≡ pointwise same_numbers shown.now (map (name_in names.now) objects.now) }
{
    match (objects.split_first(), shown.split_first()) {
        (None, None) => true,
        (Some((object, objects)), Some((name, shown))) => {
            name.bytes() == name_at(names, *object) && have_names(names, objects, shown)
        }
        _ => false,
    }
}

/// Whether this is the request of this number, of this instance.
pub(crate) fn is_request(
    task: &Task,
    names: &[Name],
    queue: &Queue,
    number: u32,
    instance: &Instance,
    request: &Request<'_>,
) -> bool
    ensures { result ≡ is_same_request task.now names.now queue.now number instance.now
        request.now.number request.now.turn request.now.call.now }
{
    let call = request.call;
    request.number == number
        && request.turn == queue.yields(instance)
        && call.name.bytes() == stream_name(task, instance.stream)
        && have_names(names, instance.inputs.as_slice(), call.args.as_slice())
}
