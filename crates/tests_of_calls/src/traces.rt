//! The header of the trace of a design in which very many instances stand in one another.

use flat_design::sim_time_api::Resolution;
use flat_design::{Code, Design, Object, ObjectForm, Objects};
use logic_values::{Items, Text};
use std::alloc::{AllocError, Global};
use std::test::Fail;
use vcd_trace::header;

// So many instances of the name `m`, each in the one before it.
fn instances(alloc: Global, count: u32) -> Result<Items<Object>, AllocError> {
    let mut list = Items::new(alloc);
    for number in 0..count {
        list.push(Object {
            name: Text::from_vec(Vec::from_slice(alloc, b"m")?),
            line: 1,
            parent: number.saturating_sub(1),
            form: ObjectForm::Instance { module: 0 },
        })?;
    }
    Ok(list)
}

// A design of these objects, with no parts and no code.
fn design(alloc: Global, list: Items<Object>) -> Design {
    Design {
        resolution: Resolution::picosecond(),
        objects: Objects {
            list,
            binds: Items::new(alloc),
        },
        instances: Items::new(alloc),
        signals: Items::new(alloc),
        resolved: Items::new(alloc),
        fifos: Items::new(alloc),
        mutexes: 0,
        semaphores: Items::new(alloc),
        keepers: 0,
        memories: Items::new(alloc),
        variables: Items::new(alloc),
        ports: Items::new(alloc),
        processes: Items::new(alloc),
        hops: Items::new(alloc),
        events: 0,
        visible: Items::new(alloc),
        exceptions: Items::new(alloc),
        code: Code {
            bodies: Items::new(alloc),
            blocks: Items::new(alloc),
            statements: Items::new(alloc),
        },
    }
}

#[test]
fn many_instances_in_one_another(rt: HostRuntime) -> Result<(), Fail> {
    let alloc = rt.alloc();
    let text = header(alloc, &design(alloc, instances(alloc, 30_000)?))?;
    assert_eq!(rt; text.as_slice().len(), 42 + 30_000 * 35);
    Ok(())
}
