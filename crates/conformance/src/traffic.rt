//! Traffic files that are as large as they may be.

use std::alloc::{AllocError, Global};

/// So many targets of 16 bytes with a latency of 3, so many initiators, and 4,096 writes: each initiator in turn, to the
/// target of its number.
pub fn large_text(alloc: Global, names: u32) -> Result<String, AllocError> {
    let mut text = String::new(alloc);
    for i in 0..names {
        text.push_str(format!(in alloc;
            "target t{i} {} 16 3\ninitiator i{i}\n",
            u64::from(i) * 16
        )?.as_str())?;
    }
    for k in 0..4096u32 {
        let i = k % names.max(1);
        text.push_str(format!(in alloc; "at 0 i{i} write {} 5a\n", u64::from(i) * 16)?.as_str())?;
    }
    Ok(text)
}
