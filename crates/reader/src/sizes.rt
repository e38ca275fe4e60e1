ghost use Rattle.reader.specs.Left.{left, longer_by, Read};
ghost use Rattle.rle.specs.Scans.{digits_on, numeral, size};
ghost use Rattle.std.specs.Prelude.{◌≡◌, ◌≤◌};

use crate::reader::Reader;
use numbers::with_digit;
use rle::ReadCause;

impl<'a> Reader<'a> {
    // A number of up to four digits with the digit that comes next at its end; none where no digit
    // comes.
    fn longer(&self, number: u32) -> Option<u32>
        requires { number ≤ 9999 }
        ensures { result ≡ longer_by number (left self.now) }
    {
        u32::try_from(with_digit(u64::from(number), self.peek()?)?).ok()
    }

    // The digits that come, at most four; a fifth is out of place.
    fn digits(&mut self) -> Result<u32, ReadCause>
        ensures { Read (digits_on 4 0) self.old self.new result }
    {
        let mut number = 0;
        for _ in 0..4u32 {
            let Some(longer) = self.longer(number) else {
                return Ok(number);
            };
            number = longer;
            self.advance();
        }
        match self.longer(number) {
            Some(_) => Err(ReadCause::Byte),
            None => Ok(number),
        }
    }

    // A number of one to four digits without a leading zero.
    #[tactic(auto, unfolding(rle::specs::Scans::numeral))]
    pub(crate) fn numeral(&mut self) -> Result<u32, ReadCause>
        ensures { Read numeral self.old self.new result }
    {
        match self.next_byte()? {
            b'1'..=b'9' => self.digits(),
            _ => Err(ReadCause::Byte),
        }
    }

    // A width or a height; one that is too large is at fault where it starts.
    #[tactic(auto, unfolding(rle::specs::Scans::size))]
    pub(crate) fn size(&mut self) -> Result<u32, ReadCause>
        ensures { Read size self.old self.new result }
    {
        let start = *self;
        let number = self.numeral()?;
        if number > 32 {
            *self = start;
            return Err(ReadCause::Size);
        }
        Ok(number)
    }
}
