//! Spawned instances.
ghost use Rattle.std.specs.Prelude.{◌≤◌, ◌≡◌, ◌<◌, ◌+◌, ◌^◌, ℕ, IfOk, OnErr, length};
ghost use Rattle.kernel_processes.specs.SimModel.Configuration.{Config};
ghost use Rattle.kernel_processes.specs.SimModel.Calls.{may_spawn};
ghost use Rattle.kernel_processes.specs.InstanceViews.{body_at as kept_at};
ghost use Rattle.kernel_state.specs.Kernel.{StandsFor, IsSound};
ghost use Rattle.kernel_state.specs.Moves.{Moves, Lives};
ghost use Rattle.kernel_state.specs.Spawned.{AnswersMay, with_offspring};

use crate::kernel::{Kept, Kernel, Offspring, PathOf};
use kernel_processes::instance_table_api::SpawnStop;
use kernel_processes::{spawn as spawn_process, top};
use process_bodies::Body;
use std::alloc::Global;

/// A new instance is spawned, and its serial is answered (IEEE 1666-2011, 5.5). The instance on top of the stack is its parent. The
/// bodies of the others stay, and so does the stack.
///
/// # Errors
/// As many instances live as may; there is no memory for it. Then nothing changes.
pub fn spawn(k: &mut Kernel, alloc: Global, o: Offspring) -> Result<u32, SpawnStop>
    requires sound { IsSound k.old }
    requires room { k.old.made < 2 ^ 31 + 2 }
    ensures serial { IfOk result (λ n. (c : Config) → StandsFor k.old c → n ≡ length c.processes.instances) }
    ensures spawned { IfOk result (λ n. Moves k.old k.new (λ c. with_offspring c n o)) }
    ensures answer { (c : Config) → StandsFor k.old c → AnswersMay result (may_spawn c) }
    ensures stays { OnErr result (Moves k.old k.new (λ c. c)) }
    ensures others { (q : ℕ) → Lives k.old q → kept_at k.new.schedule q ≡ kept_at k.old.schedule q }
    ensures stack { k.new.schedule.stack.items ≡ k.old.schedule.stack.items }
    ensures program { k.new.program.now ≡ k.old.program.now }
    ensures sound { IsSound k.new }
    ensures made { k.new.made ≤ k.old.made + 1 }
    ensures refused { OnErr result (k.new.made ≡ k.old.made) }
{
    let serial = k.schedule.table.next_serial();
    let Offspring {
        kind,
        home,
        code,
        arguments,
        sensitive,
        waits,
    } = o;
    match k.parents.reserve(1) {
        Ok(()) => {}
        Err(_) => return Err(SpawnStop::NoMemory),
    }
    let parent = top(&k.schedule);
    let body = match Body::start(alloc, k.program, code, arguments) {
        Ok(body) => body,
        Err(_) => return Err(SpawnStop::NoMemory),
    };
    let kept = Kept {
        home,
        path: PathOf::Spawned(serial),
        body,
        trigger: None,
    };
    match spawn_process(&mut k.schedule, kind, sensitive, kept, waits) {
        Ok(serial) => {
            k.parents.push_reserved(parent);
            k.made += 1;
            Ok(serial)
        }
        Err(stop) => Err(stop),
    }
}
