// What both calls are lent: how many rows, and how many the station needs.
ghost use Rattle.std.specs.Prelude.{◌≡◌, ◌*◌, ◌≤◌, length};
ghost use Rattle.release.specs.Files.{most_names};
ghost use Rattle.concept_rows.specs.Lent.{row_count, rows_needed};
ghost use Rattle.witness.specs.Lent.{most_rows_needed};

// How many rows these numbers are. What is left over behind the last whole row is no row.
pub fn row_count(rows: &[u32]) -> usize
    ensures { (result ≡ row_count rows.now) × (3 * result ≤ length rows.now) }
{
    rows.len() / 3
}

// How many rows the station is to be lent.
pub fn rows_needed(names: usize) -> usize
    requires { names ≤ most_names }
    ensures { (result ≡ rows_needed names) × (result ≤ most_rows_needed) }
{
    let side = names + 2;
    side * side * side
}
