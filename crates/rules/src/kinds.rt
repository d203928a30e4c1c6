// The sixteen kinds of event, by document 01's numbers; specs/Kinds.antt has the same names.
ghost use Rattle.std.specs.Prelude.{◌≡◌};
ghost use Rattle.rules.specs.Kinds.{kind_number, Decodes};

#[derive(Clone, Copy, Debug, PartialEq, Eq)]
pub enum Kind {
    Bill = 1,
    Payment = 2,
    // a payment that the bank sent back
    ReturnedPayment = 3,
    Fee = 4,
    DepositAsked = 5,
    DepositPaid = 6,
    DepositMoved = 7,
    Payout = 8,
    Certificate = 9,
    Approval = 10,
    Arrangement = 11,
    FinalNotice = 12,
    Call = 13,
    Disconnection = 14,
    Reconnection = 15,
    Closing = 16,
}

// A number that is no kind's. Nothing prints it: what is refused is told by a number of the table.
#[derive(Clone, Copy, Debug, PartialEq, Eq)]
pub struct UnknownKind(pub u8);

impl Kind {
    // The papers' word for it. Not `From`: an event is asked `is(kind)`, and u8::from(kind) there would be no plainer.
    pub fn number(self) -> u8
        ensures { result ≡ kind_number self }
    {
        self as u8
    }
}

impl TryFrom<u8> for Kind {
    type Error = UnknownKind;

    ghost try_from_gives = { Decodes };

    fn try_from(number: u8) -> Result<Self, UnknownKind> {
        match number {
            1 => Ok(Kind::Bill),
            2 => Ok(Kind::Payment),
            3 => Ok(Kind::ReturnedPayment),
            4 => Ok(Kind::Fee),
            5 => Ok(Kind::DepositAsked),
            6 => Ok(Kind::DepositPaid),
            7 => Ok(Kind::DepositMoved),
            8 => Ok(Kind::Payout),
            9 => Ok(Kind::Certificate),
            10 => Ok(Kind::Approval),
            11 => Ok(Kind::Arrangement),
            12 => Ok(Kind::FinalNotice),
            13 => Ok(Kind::Call),
            14 => Ok(Kind::Disconnection),
            15 => Ok(Kind::Reconnection),
            16 => Ok(Kind::Closing),
            _ => Err(UnknownKind(number)),
        }
    }
}
