ghost use Rattle.ldar_facts.specs.Form.{Takes};
ghost use Rattle.ldar_facts.specs.Letters.{name_form, zeros};

use crate::cursor::Cursor;
use crate::read_end::ReadEnd;
use fact_kinds::Name;

/// The bytes of names: hyphen, digits and capital letters.
const LETTERS: [(u32, u32); 3] = [(45, 45), (48, 57), (65, 90)];

const LETTERS_OR_ZERO: [(u32, u32); 4] = [(0, 0), (45, 45), (48, 57), (65, 90)];

impl Cursor<'_> {
    /// Takes the name of a process unit, in its twelve bytes.
    #[tactic(auto, unfolding(crate::specs::Letters::name_form))]
    pub(crate) fn name(&mut self) -> Result<Name, ReadEnd>
        ensures { Takes name_form.read result self.old self.new }
    {
        let mut letters = [0u8; 12];
        letters[0] = self.byte(&LETTERS)?;
        for len in 1..12 {
            let next = self.byte(&LETTERS_OR_ZERO)?;
            if next == 0 {
                self.zeros(11 - len)?;
                return Ok(Name::new(&letters[..len]).unwrap());
            }
            letters[len] = next;
        }
        Ok(Name::new(&letters).unwrap())
    }

    /// Takes `count` zero bytes.
    fn zeros(&mut self, count: usize) -> Result<(), ReadEnd>
        ensures { Takes (zeros count).read result self.old self.new }
    {
        for _ in 0..count {
            self.byte(&[(0, 0)])?;
        }
        Ok(())
    }
}
