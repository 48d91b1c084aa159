ghost use Rattle.std.specs.Prelude.{◌≡◌, ◌+◌, ◌-◌, ◌≤◌, ◌++◌, List, ℕ, length, sum_by, vec_len, vec_capacity};
ghost use Rattle.log_format.specs.declared.form.TheConstants.{MOST_BYTES_TWO};
ghost use Rattle.log_format.specs.declared.layout.TheConstants.{ENTRY_HEAD};
ghost use Rattle.log_format.specs.Frames.{sizes_of};
ghost use Rattle.gated_log.specs.Extents.{extents};

use crate::extent::Extent;
use log_format::ENTRY_HEAD;

/// Adds to an index, which has the memory, where payloads of these lengths stand behind a gate.
pub fn add_extents(index: &mut Vec<Extent>, gate: u64, sizes: &[u32])
    requires reserved { length sizes.now ≤ vec_capacity index.old - vec_len index.old }
    requires small { gate + sum_by (λ size. ENTRY_HEAD + size) sizes.now ≤ MOST_BYTES_TWO }
    ensures added { (payloads : List (List ℕ)) → sizes.now ≡ sizes_of payloads → index.new.items ≡ index.old.items ++ extents gate payloads }
    ensures len { vec_len index.new ≡ vec_len index.old + length sizes.now }
{
    let mut place = gate;
    let mut at = 0;
    while at < sizes.len() {
        let size = sizes[at];
        index.push_reserved(Extent {
            place: (place + ENTRY_HEAD) as u32,
            size,
        });
        place += ENTRY_HEAD + u64::from(size);
        at += 1;
    }
}
