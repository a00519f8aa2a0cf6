ghost use Rattle.std.specs.Prelude.{◌≡◌, ◌<◌, ◌++◌, OnOk};
ghost use Rattle.task_order.specs.PathCode.{digits, item};

use super::shared_bytes::SharedBytes;
use kdg_text::NoRoom;

/// Adds the bytes of a number above 0, behind `zeros` zeros.
pub(super) fn push_item(bytes: &mut SharedBytes, zeros: u64, number: u32) -> Result<(), NoRoom>
    requires { 0 < number }
    ensures { OnOk result (bytes.new ≡ bytes.old ++ item zeros number) }
{
    if zeros >= 15 {
        bytes.push(0)?;
        push_digits(bytes, 8, u64::MAX - zeros)?;
        return push_digits(bytes, 4, u64::from(number));
    }
    let high = (15 - zeros as u8) * 16;
    if number >= 16 {
        bytes.push(high + 15)?;
        return push_digits(bytes, 4, u64::from(number));
    }
    bytes.push(high + (number as u8 - 1))
}

/// Adds the last digits of the number in base 256.
fn push_digits(bytes: &mut SharedBytes, count: u8, number: u64) -> Result<(), NoRoom>
    ensures { OnOk result (bytes.new ≡ bytes.old ++ digits count number) }
{
    if count == 0 {
        return Ok(());
    }
    push_digits(bytes, count - 1, number / 256)?;
    bytes.push((number % 256) as u8)
}
