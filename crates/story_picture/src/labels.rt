//! The labels of all rows.
ghost use Rattle.std.specs.Prelude.{◌≡◌, ◌++◌, map, OnOk};
ghost use Rattle.schedule_file.specs.Views.{listed};
ghost use Rattle.picture_defs.specs.Labels as plain;
ghost use Rattle.picture_defs.specs.Pictures.{each_row};
ghost use Rattle.story_picture.specs.Views.{row as row_view};

use crate::rows::Row;
use picture_labels::push_label;
use rp_base::NoMemory;
use schedule_file::Listed;

/// The marks and what is beside them.
pub(crate) fn push_labels(
    out: &mut Vec<u8>,
    processes: &[Listed],
    rows: &[Row],
) -> Result<(), NoMemory>
    ensures { OnOk result (out.new.items ≡ out.old.items
        ++ each_row (λ k e what. plain.label (map listed processes.now) k what) (map row_view rows.now)) }
{
    for (k, one) in rows.iter().enumerate() {
        push_label(out, processes, k as u64, &one.what)?;
    }
    Ok(())
}
