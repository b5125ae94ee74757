//! Round robin: whose turn is next once a schedule is used up.
ghost use Rattle.std.specs.Prelude.{◌≡◌, ◌≤◌, ◌^◌, length};
ghost use Rattle.ec_world.specs.Run.{next_ready_of, first_true};

use crate::value::Pid;

/// The next process to have a turn, where one is Ready: the least Ready process above the one of the last turn, else the
/// least Ready one. `ready` says of each process whether it is Ready.
pub fn next_ready(ready: &[bool], last: Option<Pid>) -> Option<Pid>
    requires { length ready.now ≤ 2 ^ 32 }
    ensures { result ≡ next_ready_of ready.now last }
{
    let Some(last) = last else {
        return first_ready(ready, 0);
    };
    match first_ready(ready, last as usize + 1) {
        Some(p) => Some(p),
        None => first_ready(ready, 0),
    }
}

/// The least Ready process from one on.
fn first_ready(ready: &[bool], from: usize) -> Option<Pid>
    requires { length ready.now ≤ 2 ^ 32 }
    ensures { result ≡ first_true from 0 ready.now }
{
    for p in from..ready.len() {
        if ready[p] {
            return Some(p as u32);
        }
    }
    None
}
