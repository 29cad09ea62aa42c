// The total of a sheet.
//
// Each group's limit is the lesser of the one in its record and the one above it, which is there already, since the groups are
// gone through from the first on. Sums are true sums: a limit × a mark has 48 bits, and there are at most 512 of them beside 512
// marks.
ghost use Rattle.std.specs.Prelude.{◌≡◌, ◌+◌, ◌*◌, ◌<◌, ◌≤◌, length};
ghost use Rattle.theory.specs.Bounds.{max_groups, max_rows, cell_bound};
ghost use Rattle.theory.specs.Lowered as lowered;
ghost use Rattle.theory.specs.Matroid.{row};
ghost use Rattle.claimfile.specs.Day.{groups_of, limit_of, instance_of};
ghost use Rattle.claimfile.specs.Sound.{Sound};
ghost use Rattle.instance.specs.Meaning.{nodes};
ghost use Rattle.sheets.specs.Sheet.{sheet_total};
ghost use Rattle.sheets.specs.Judge.{most_product, Sheeted, Lowers, group_total, row_total};

use claimfile::Layout;
use instance::{lesser, node_at};

// The limit of a group under node `up`: the written one, lowered to that of `up` where `up` is a group with less.
fn lower(groups: usize, up: usize, written: usize, limits: &[u16]) -> usize
    requires { groups ≤ length limits.now }
    ensures { (result ≡ lowered.lesser groups up written (row limits.now up)) × (result ≤ written) }
{
    if groups <= up {
        return written;
    }
    lesser(written, usize::from(limits[up]))
}

// The limit of group `v`, when those of the groups before it are there.
fn lower_group(file: &[u8], layout: Layout, v: usize, limits: &mut [u16]) -> u64
    requires { (Sound file.now layout) × (v < groups_of layout) × (Lowers file.now layout limits.old v) }
    ensures { (Lowers file.now layout limits.new (v + 1)) × (result ≡ limit_of file.now layout v) × (result < 65536) }
{
    let group = node_at(file, layout, v);
    let limit = lower(
        layout.cards + layout.shops,
        group.parent,
        group.limit,
        limits,
    );
    limits[v] = limit as u16;
    // stays: the new form is no plainer: as in Rust, the library has no `From` from usize to u64, and no bit is lost here.
    limit as u64
}

// A group's limit × its mark.
fn times(limit: u64, mark: u64) -> u64
    requires { (limit < 65536) × (mark < cell_bound) }
    ensures { (result ≡ limit * mark) × (result ≤ most_product) }
{
    limit * mark
}

// Each group's limit × mark, summed.
fn total_groups(file: &[u8], layout: Layout, sheet: &[u32], limits: &mut [u16]) -> u64
    requires { (Sheeted file.now layout sheet.now) × (nodes ≤ length limits.old) }
    ensures { (result ≡ group_total file.now layout sheet.now (groups_of layout)) × (result ≤ most_product * groups_of layout) }
{
    let groups = layout.cards + layout.shops;
    let mut total = 0;
    for v in 0..groups {
        let limit = lower_group(file, layout, v, limits);
        total += times(limit, u64::from(sheet[v]));
    }
    total
}

// The rows' marks, summed.
fn total_rows(groups: usize, rows: usize, sheet: &[u32]) -> u64
    requires { (groups + rows ≤ length sheet.now) × (groups ≤ 2 * max_groups) × (rows ≤ max_rows) }
    ensures { (result ≡ row_total sheet.now groups rows) × (result ≤ cell_bound * rows) }
{
    let mut total = 0;
    for c in 0..rows {
        total += u64::from(sheet[groups + c]);
    }
    total
}

// The sheet's total.
pub fn total_of(file: &[u8], layout: Layout, sheet: &[u32], cells: &mut [u16]) -> u64
    requires { (Sheeted file.now layout sheet.now) × (nodes ≤ length cells.old) }
    ensures { result ≡ sheet_total (instance_of file.now layout) sheet.now }
{
    let groups = total_groups(file, layout, sheet, cells);
    groups + total_rows(layout.cards + layout.shops, layout.rows, sheet)
}
