// What a call answers in C.
ghost use Rattle.std.specs.Prelude.{◌≡◌};
ghost use Rattle.clib.specs.Answers.{answer_to, refused_answer, fault_answer};

use crate::refused::Refused;
use kcipher::bytes::NoCipher;
use spelling::fault::Fault;

// 0 for done, or the number of a refusal; what was refused; and the place in a list that is no order.
#[repr(C)]
#[derive(Clone, Copy)]
pub struct Answer {
    pub status: u64,
    pub at: u64,
    pub place: u64,
}

impl Answer {
    pub const DONE: Answer = Answer {
        status: 0,
        at: 0,
        place: 0,
    };

    pub(crate) fn to(told: Result<(), Refused>) -> Answer
        ensures { result ≡ answer_to told }
    {
        match told {
            Ok(()) => Answer::DONE,
            Err(refused) => Answer::refused(refused),
        }
    }

    fn refused(refused: Refused) -> Answer
        ensures { result ≡ refused_answer refused }
    {
        match refused {
            Refused::Cipher(NoCipher::Draft(fault)) => Answer::fault(fault),
            Refused::Cipher(NoCipher::Key(refusal)) => Answer {
                status: refusal.number().into(),
                at: 0,
                place: 0,
            },
            Refused::Number { which, refusal } => Answer {
                status: refusal.number().into(),
                at: which as u64,
                place: 0,
            },
        }
    }

    pub(crate) fn fault(fault: Fault) -> Answer
        ensures { result ≡ fault_answer fault }
    {
        Answer {
            status: fault.reason.number().into(),
            at: fault.offset as u64,
            place: fault.reason.place().unwrap_or(0) as u64,
        }
    }
}
