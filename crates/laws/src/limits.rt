//! The limits have the values that the documents tell, and the grid's tasks the texts. Contracts
//! cite a constant by its name, so that no clause of theirs fixes its value; these laws do.
ghost use Rattle.command_line.specs.declared.number.TheConstants.{DEFAULT_CALLS, DEFAULT_DEPTH, DEFAULT_STATES, LATEST_PROTOCOL, MOST_RESTARTS};
ghost use Rattle.fact_store.specs.declared.facts.TheConstants.{MOST_NAMES};
ghost use Rattle.gen_lines.specs.declared.line_buf.TheConstants.{LINE_BYTES, LINE_LENGTH};
ghost use Rattle.gen_lines.specs.declared.spans.TheConstants.{YIELD_TUPLES};
ghost use Rattle.gen_lines.specs.declared.values.TheConstants.{VALUE_BYTES};
ghost use Rattle.grid_text.specs.Tasks.{grid_task};
ghost use Rattle.grid_world.specs.declared.service.TheConstants.{MOST_LINES};
ghost use Rattle.io_world.specs.declared.host.TheConstants.{CHILDREN};
ghost use Rattle.laws.specs.GridTexts.{grid_domain_text, grid_streams_text};
ghost use Rattle.report_reader.specs.declared.reader.TheConstants.{REPORT_BYTES};
ghost use Rattle.std.specs.Prelude.{ℕ, ◌≡◌, ◌*◌, ◌^◌};
ghost use Rattle.stream_map.specs.declared.pools.TheConstants.{GRID_CHILD};
ghost use Rattle.task_model.specs.declared.limits.TheConstants.{LARGEST_COUNT, LARGEST_NUMBER, MOST_DUE, MOST_STATES, MOST_SUPPOSED, SLOTS};
ghost use Rattle.task_reader.specs.declared.texts.TheConstants.{TEXT_BYTES};
ghost use Rattle.transcript_model.specs.declared.limits.TheConstants.{MOST_CALLS, MOST_DEPTH, WORKERS};

/// Costs and values are at most 1,000,000, and as many instances may be due; a search goes through
/// at most 200,000 states; a run makes at most 100,000 requests, of pools with at most 16 workers
/// and children below 17; entries are supposed at most 8 deep; a value has at most 64 bytes, and
/// fewer than 2^32 - 2^18 objects have names. The grid's program answers at most 100,000 lines.
/// The protocol has two versions. At most 1,000 failures of children are made good.
pub fn limits_have_their_values()
    ensures numbers { LARGEST_NUMBER ≡ 1000000 }
    ensures due { MOST_DUE ≡ 1000000 }
    ensures states { MOST_STATES ≡ 200000 }
    ensures calls { MOST_CALLS ≡ 100000 }
    ensures depth { MOST_DEPTH ≡ 8 }
    ensures workers { WORKERS ≡ 16 }
    ensures children { CHILDREN ≡ 17 }
    ensures value { VALUE_BYTES ≡ 64 }
    ensures names { MOST_NAMES ≡ 4294705152 }
    ensures lines { MOST_LINES ≡ 100000 }
    ensures protocols { LATEST_PROTOCOL ≡ 2 }
    ensures restarts { MOST_RESTARTS ≡ 1000 }
{}

/// At most 20,000 entries are supposed at a time, counts and the numbers of a report go up to
/// 2^32 - 1, an action, an item or a stream has at most 16 slots, and a yield at most 16 tuples.
/// The grid's generator is child 16.
pub fn counts_have_their_values()
    ensures supposed { MOST_SUPPOSED ≡ 20000 }
    ensures count { LARGEST_COUNT ≡ 4294967295 }
    ensures slots { SLOTS ≡ 16 }
    ensures tuples { YIELD_TUPLES ≡ 16 }
    ensures grid { GRID_CHILD ≡ 16 }
{}

/// Where the words name no limit, a run makes at most 10,000 requests, a search goes through at
/// most 100,000 states, and entries are supposed at most 3 deep.
pub fn defaults_have_their_values()
    ensures calls { DEFAULT_CALLS ≡ 10000 }
    ensures states { DEFAULT_STATES ≡ 100000 }
    ensures depth { DEFAULT_DEPTH ≡ 3 }
{}

/// Texts have at most 4 MiB, reports at most 256 MiB, lines of a child at most 1,024 bytes, and
/// 1,025 of its bytes are held: a line and its line feed.
pub fn lengths_have_their_values()
    ensures texts { TEXT_BYTES ≡ 4 * 2 ^ 20 }
    ensures reports { REPORT_BYTES ≡ 256 * 2 ^ 20 }
    ensures line { LINE_LENGTH ≡ 1024 }
    ensures held { LINE_BYTES ≡ 1025 }
{}

/// The task of the grid of each number has this domain and these streams.
pub fn grid_tasks_have_these_texts()
    ensures domain { (number : ℕ) → (grid_task number).domain ≡ grid_domain_text }
    ensures streams { (number : ℕ) → (grid_task number).streams ≡ grid_streams_text }
{}
