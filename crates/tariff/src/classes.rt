// The three classes of a bill, by the rules' numbers; specs/Classes.antt has the same names.
ghost use Rattle.tariff.specs.Classes.{Decodes};

#[derive(Clone, Copy)]
pub enum Class {
    Residential = 1,
    SinglePhase = 2,
    ThreePhase = 3,
}

// A number that is no class's.
#[derive(Clone, Copy)]
pub struct UnknownClass(pub u8);

impl TryFrom<u8> for Class {
    type Error = UnknownClass;

    ghost try_from_gives = { Decodes };

    fn try_from(number: u8) -> Result<Self, UnknownClass> {
        match number {
            1 => Ok(Class::Residential),
            2 => Ok(Class::SinglePhase),
            3 => Ok(Class::ThreePhase),
            _ => Err(UnknownClass(number)),
        }
    }
}
