//! Which arguments ask for workers.
ghost use Rattle.std.specs.Prelude.{◌≡◌, ◌≤◌, map, IfSome};
ghost use Rattle.std.specs.String.{string_bytes};
ghost use Rattle.mokabox_threads.specs.Threads.{workers_in_range, workers_by};

use mokabox_syntax::fields::number;

/// The greatest number of workers.
pub const MOST_WORKERS: u64 = 16;

/// Returns the number of workers that the arguments ask for: `threads N`, with N from 1 to 16. They
/// do not include the program's own name. Returns `None` if they ask for anything else.
pub fn workers_of(arguments: &[String]) -> Option<u64>
    ensures exact { result ≡ workers_by (map string_bytes arguments.now) }
    ensures range { IfSome result (λ workers. (1 ≤ workers) × (workers ≤ 16)) }
{
    match arguments {
        [word, count] if word.as_str() == "threads" => workers_in_range(number(count.as_str())?),
        _ => None,
    }
}

// Returns the number of workers, if it is from 1 to the greatest.
fn workers_in_range(count: u64) -> Option<u64>
    ensures { result ≡ workers_in_range count }
{
    if 1 <= count && count <= MOST_WORKERS {
        Some(count)
    } else {
        None
    }
}
