// Whether a sheet covers every claim.
//
// The marks from a group up to the top are its price. Prices are added up from the first group on, and each claim is then covered
// or not by the cells of the two nodes where it hangs. No claim weighs more than 513, so a price over 65535 is as good as 65535,
// and a cell has 16 bits.
ghost use Rattle.std.specs.Prelude.{◌≡◌, ◌+◌, ◌*◌, min, ◌<◌, ◌≤◌, length};
ghost use Rattle.theory.specs.Bounds.{max_limit};
ghost use Rattle.theory.specs.Matroid.{row};
ghost use Rattle.claimfile.specs.Day.{groups_of, instance_of};
ghost use Rattle.instance.specs.Meaning.{nodes};
ghost use Rattle.sheets.specs.Sheet.{covers, covered};
ghost use Rattle.sheets.specs.Judge.{Sheeted, Zeros, Priced};

use claimfile::{Layout, claim_of};
use instance::{card_node, node_at, power, shop_node};

// The greatest price that a cell holds. It is more than any claim weighs.
const PRICE: u64 = 65535;

// A price as a cell holds it.
fn capped(price: u64) -> u16
    ensures { result ≡ min price max_limit }
{
    price.min(PRICE) as u16
}

// The price of group `v`, when those of the groups before it are there: its mark and the price above it.
fn price_group(file: &[u8], layout: Layout, v: usize, sheet: &[u32], prices: &mut [u16])
    requires { (Sheeted file.now layout sheet.now) × (v < groups_of layout) × (Priced file.now layout sheet.now prices.old v) }
    ensures { Priced file.now layout sheet.now prices.new (v + 1) }
{
    let group = node_at(file, layout, v);
    let up = group.parent;
    prices[v] = capped(u64::from(sheet[v]) + u64::from(prices[up]));
}

// The price of each group.
fn price_groups(file: &[u8], layout: Layout, sheet: &[u32], prices: &mut [u16])
    requires { (Sheeted file.now layout sheet.now) × (Zeros prices.old) }
    ensures { Priced file.now layout sheet.now prices.new (groups_of layout) }
{
    let groups = layout.cards + layout.shops;
    for v in 0..groups {
        price_group(file, layout, v, sheet, prices);
    }
}

// The prices of two nodes.
fn price_of(card: usize, shop: usize, prices: &[u16]) -> u64
    requires { (card < length prices.now) × (shop < length prices.now) }
    ensures { (result ≡ row prices.now card + row prices.now shop) × (result ≤ 2 * max_limit) }
{
    u64::from(prices[card]) + u64::from(prices[shop])
}

// Whether the sheet covers row `c`: its own mark and the marks of all groups that it counts in come to its weight.
fn covers_row(file: &[u8], layout: Layout, c: usize, sheet: &[u32], prices: &[u16]) -> bool
    requires { (Sheeted file.now layout sheet.now) × (Priced file.now layout sheet.now prices.now (groups_of layout)) × (c < layout.rows) }
    ensures { result ≡ covers (instance_of file.now layout) sheet.now c }
{
    let claim = claim_of(file, layout, c);
    let groups = layout.cards + layout.shops;
    let card = card_node(file, layout, claim, groups);
    let shop = shop_node(layout, claim);
    let price = price_of(card, shop, prices);
    let own = groups + c;
    // stays: the new form is no plainer: as in Rust, the library has no `From` from usize to u64, and no bit is lost here.
    power(layout.rows, claim.kind) as u64 <= u64::from(sheet[own]) + price
}

// Whether it covers every row.
fn covers_all(file: &[u8], layout: Layout, sheet: &[u32], prices: &[u16]) -> bool
    requires { (Sheeted file.now layout sheet.now) × (Priced file.now layout sheet.now prices.now (groups_of layout)) }
    ensures { result ≡ covered (instance_of file.now layout) sheet.now }
{
    for c in 0..layout.rows {
        if !covers_row(file, layout, c, sheet, prices) {
            return false;
        }
    }
    true
}

// The same, with the prices added up in a table of zeros.
pub fn is_covered(file: &[u8], layout: Layout, sheet: &[u32], cells: &mut [u16]) -> bool
    requires { (Sheeted file.now layout sheet.now) × (Zeros cells.old) }
    ensures { (result ≡ covered (instance_of file.now layout) sheet.now) × (nodes ≤ length cells.new) }
{
    price_groups(file, layout, sheet, cells);
    covers_all(file, layout, sheet, cells)
}
