/// A number, behind some zeros.
#[derive(Clone, Copy)]
pub(super) struct Item {
    pub zeros: u64,
    pub number: u64,
}

/// Reads items from their bytes.
#[derive(Clone, Copy)]
pub(super) struct ItemReader {
    item: Item,
    digits_left: u8,
}

impl ItemReader {
    pub(super) fn new() -> ItemReader {
        ItemReader {
            item: Item {
                zeros: 0,
                number: 0,
            },
            digits_left: 0,
        }
    }

    /// Takes the next byte, and gives the item that ends with it.
    pub(super) fn read(&mut self, byte: u8) -> Option<Item> {
        if self.digits_left == 0 {
            self.begin(byte);
        } else {
            self.digits_left -= 1;
            self.add_digit(u64::from(byte));
        }
        if self.digits_left == 0 {
            Some(self.item)
        } else {
            None
        }
    }

    fn begin(&mut self, head: u8) {
        let few = head >= 16;
        self.item = Item {
            zeros: if few { u64::from(15 - head / 16) } else { 0 },
            number: if few && head % 16 < 15 {
                u64::from(head % 16 + 1)
            } else {
                0
            },
        };
        self.digits_left = if !few {
            12
        } else if head % 16 == 15 {
            4
        } else {
            0
        };
    }

    fn add_digit(&mut self, digit: u64) {
        if self.digits_left < 4 {
            self.item.number = self.item.number.wrapping_mul(256).wrapping_add(digit);
            return;
        }
        self.item.zeros = self.item.zeros.wrapping_mul(256).wrapping_add(digit);
        if self.digits_left == 4 {
            self.item.zeros = u64::MAX - self.item.zeros;
        }
    }
}
