// The numbers given back, each by its name: paper 01's refusals, and 0 where there is none. `include/lathepetal.h` has the same names.
#![tactic(auto)]

ghost use Rattle.std.specs.Prelude.{◌≡◌};
ghost use Rattle.numbers.specs.Numbers.{number_of, number_in};

pub const DONE: u8 = 0;

// A record.
pub const ORDER_ROOM_TOO_SHORT: u8 = 1;

pub const RECORD_MALFORMED: u8 = 2;

pub const NOT_RUNNING: u8 = 3;

pub const ALREADY_RUNNING: u8 = 4;

pub const WRONG_PASS: u8 = 5;

pub const NO_SUCH_POSITION: u8 = 6;

pub const POSITION_IGNORED: u8 = 7;

pub const NOT_ASKED: u8 = 8;

pub const NO_PASS_LEFT: u8 = 9;

// A fresh picture, and a telegram.
pub const ILLEGAL_SIZE: u8 = 10;

pub const PAYLOAD_TOO_LONG: u8 = 11;

pub const NO_SUCH_TELEGRAM: u8 = 12;

pub const ROOM_TOO_SHORT: u8 = 13;

pub const TELEGRAM_MALFORMED: u8 = 14;

pub const TEL_ID_PASSED_OVER: u8 = 15;

pub const OUT_OF_SEQUENCE: u8 = 16;

// A look-up.
pub const NOT_LISTED: u8 = 17;

pub const NOT_OK: u8 = 18;

// Two lists of rows.
pub const ROWS_NOT_RISING: u8 = 20;

pub const NO_ROOM_FOR_DIFFERENCES: u8 = 21;

// Why something is refused: the error of every function that can refuse. C gets its number.
#[derive(Clone, Copy, Debug, PartialEq, Eq)]
pub enum Refusal {
    OrderRoomTooShort,
    RecordMalformed,
    NotRunning,
    AlreadyRunning,
    WrongPass,
    NoSuchPosition,
    PositionIgnored,
    NotAsked,
    NoPassLeft,
    IllegalSize,
    PayloadTooLong,
    NoSuchTelegram,
    RoomTooShort,
    TelegramMalformed,
    TelIdPassedOver,
    OutOfSequence,
    NotListed,
    NotOk,
    RowsNotRising,
    NoRoomForDifferences,
}

impl Refusal {
    // The number given back, by the name that the papers have for it. C has it as a constant, so each is one here.
    pub fn number(self) -> u8
        ensures { result ≡ number_of self }
    {
        match self {
            Refusal::OrderRoomTooShort => ORDER_ROOM_TOO_SHORT,
            Refusal::RecordMalformed => RECORD_MALFORMED,
            Refusal::NotRunning => NOT_RUNNING,
            Refusal::AlreadyRunning => ALREADY_RUNNING,
            Refusal::WrongPass => WRONG_PASS,
            Refusal::NoSuchPosition => NO_SUCH_POSITION,
            Refusal::PositionIgnored => POSITION_IGNORED,
            Refusal::NotAsked => NOT_ASKED,
            Refusal::NoPassLeft => NO_PASS_LEFT,
            Refusal::IllegalSize => ILLEGAL_SIZE,
            Refusal::PayloadTooLong => PAYLOAD_TOO_LONG,
            Refusal::NoSuchTelegram => NO_SUCH_TELEGRAM,
            Refusal::RoomTooShort => ROOM_TOO_SHORT,
            Refusal::TelegramMalformed => TELEGRAM_MALFORMED,
            Refusal::TelIdPassedOver => TEL_ID_PASSED_OVER,
            Refusal::OutOfSequence => OUT_OF_SEQUENCE,
            Refusal::NotListed => NOT_LISTED,
            Refusal::NotOk => NOT_OK,
            Refusal::RowsNotRising => ROWS_NOT_RISING,
            Refusal::NoRoomForDifferences => NO_ROOM_FOR_DIFFERENCES,
        }
    }
}

// The number of an answer: that of its refusal, or 0 where there is none.
pub fn number_in<T: Copy>(answer: Result<T, Refusal>) -> u8
    ensures { result ≡ number_in answer }
{
    match answer {
        Ok(_) => DONE,
        Err(refusal) => refusal.number(),
    }
}
