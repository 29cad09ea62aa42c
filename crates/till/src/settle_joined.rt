// The call that settles the files of several counters together.
ghost use Rattle.till.specs.Calls.{SettleJoinedIs};

use answers::SettleJoinedAnswer;
use joined::settle_joined;
use numbers::joined_numbers;

// Settles up to eight new files in the week layout together under one oven limit, by the limits of a day: leaves the best choice and the
// marks of the joined day, and clears the scratch.
#[unsafe(no_mangle)]
pub extern "C" fn claims_settle_joined(
    files: &[u8],
    lengths: &[u32],
    oven: u16,
    day: u32,
    choice: &mut [u8],
    sheet: &mut [u32],
    scratch: &mut [u32],
) -> SettleJoinedAnswer
    ensures { SettleJoinedIs day files.now lengths.now oven choice.old sheet.old scratch.old choice.new sheet.new scratch.new result }
{
    joined_numbers(settle_joined(files, lengths, oven, day as usize, choice, sheet, scratch))
}
