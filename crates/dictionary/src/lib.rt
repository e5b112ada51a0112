// The bit dictionary: what a bit of a bitfield byte selects in a message. Bytes count from 1, bits from 0, the lowest. The options New Order, which has the
// type byte of the equities' one, is told by a number of its own, B8.
#![tactic(auto)]

ghost use Rattle.std.specs.Prelude.{◌≡◌};
ghost use Rattle.dictionary.specs.Dictionary.{entry_of};
ghost use Rattle.dictionary.specs.declared.Entry.TheVariants.{Field};

use kinds::Kind;

// A bit that is not listed, or the width, the kind and the place in a record's full layout of the field that it selects.
#[derive(Clone, Copy)]
pub enum Entry {
    Refused,
    Field { width: u8, kind: Kind, place: u8 },
}

// The field that a listed bit selects.
fn field(width: u8, kind: Kind, place: u8) -> Entry
    ensures { result ≡ Field width kind place }
{
    Entry::Field { width, kind, place }
}

// A bit of New Order.
fn new_order(byte: u8, bit: u8) -> Entry
    ensures { result ≡ entry_of 0x38 byte bit }
{
    match byte {
        1 => match bit {
            0 => field(4, Kind::Letters, 0), // ClearingFirm
            1 => field(4, Kind::Text, 4), // ClearingAccount
            2 => field(8, Kind::Price, 8), // Price
            3 => field(1, Kind::Text, 16), // ExecInst
            4 => field(1, Kind::Alphanumeric, 17), // OrdType
            5 => field(1, Kind::Alphanumeric, 18), // TimeInForce
            6 => field(4, Kind::Binary, 19), // MinQty
            7 => field(4, Kind::Binary, 23), // MaxFloor
            _ => Entry::Refused,
        },
        2 => match bit {
            0 => field(8, Kind::Alphanumeric, 27), // Symbol
            1 => field(8, Kind::Alphanumeric, 35), // SymbolSfx
            6 => field(1, Kind::Letters, 43), // Capacity
            7 => field(4, Kind::Text, 44), // RoutingInst
            _ => Entry::Refused,
        },
        3 => match bit {
            0 => field(16, Kind::Text, 48), // Account
            6 => field(1, Kind::Letters, 64), // LocateReqd
            7 => field(8, Kind::Binary, 65), // ExpireTime
            _ => Entry::Refused,
        },
        6 => match bit {
            0 => field(4, Kind::Binary, 73), // DisplayRange
            1 => field(8, Kind::Price, 77), // StopPx
            4 => field(1, Kind::Text, 85), // ExDestination
            5 => field(64, Kind::Text, 86), // EchoText
            _ => Entry::Refused,
        },
        10 => match bit {
            1 => field(4, Kind::Letters, 150), // LocateBroker
            _ => Entry::Refused,
        },
        _ => Entry::Refused,
    }
}

// A bit of the options New Order.
fn options_order(byte: u8, bit: u8) -> Entry
    ensures { result ≡ entry_of 0xB8 byte bit }
{
    match byte {
        1 => match bit {
            0 => field(4, Kind::Letters, 0), // ClearingFirm
            1 => field(4, Kind::Text, 4), // ClearingAccount
            2 => field(8, Kind::Price, 8), // Price
            3 => field(1, Kind::Text, 16), // ExecInst
            4 => field(1, Kind::Alphanumeric, 17), // OrdType
            5 => field(1, Kind::Alphanumeric, 18), // TimeInForce
            6 => field(4, Kind::Binary, 19), // MinQty
            7 => field(4, Kind::Binary, 23), // MaxFloor
            _ => Entry::Refused,
        },
        2 => match bit {
            0 => field(8, Kind::Alphanumeric, 27), // Symbol
            6 => field(1, Kind::Letters, 35), // Capacity
            7 => field(4, Kind::Text, 36), // RoutingInst
            _ => Entry::Refused,
        },
        3 => match bit {
            0 => field(16, Kind::Text, 40), // Account
            _ => Entry::Refused,
        },
        4 => match bit {
            0 => field(4, Kind::Day, 56), // MaturityDate
            1 => field(8, Kind::Price, 60), // StrikePrice
            2 => field(1, Kind::Alphanumeric, 68), // PutOrCall
            4 => field(1, Kind::Alphanumeric, 69), // OpenClose
            _ => Entry::Refused,
        },
        _ => Entry::Refused,
    }
}

// A bit of Cancel Order.
fn cancel_order(byte: u8, bit: u8) -> Entry
    ensures { result ≡ entry_of 0x39 byte bit }
{
    match byte {
        1 => match bit {
            0 => field(4, Kind::Letters, 0), // only ClearingFirm
            _ => Entry::Refused,
        },
        _ => Entry::Refused,
    }
}

// A bit of Modify Order.
fn modify_order(byte: u8, bit: u8) -> Entry
    ensures { result ≡ entry_of 0x3A byte bit }
{
    match byte {
        1 => match bit {
            0 => field(4, Kind::Letters, 0), // ClearingFirm
            2 => field(4, Kind::Binary, 4), // OrderQty
            3 => field(8, Kind::Price, 8), // Price
            4 => field(1, Kind::Alphanumeric, 16), // OrdType
            5 => field(1, Kind::Letters, 17), // CancelOrigOnReject
            6 => field(1, Kind::Text, 18), // ExecInst
            7 => field(1, Kind::Alphanumeric, 19), // Side
            _ => Entry::Refused,
        },
        2 => match bit {
            0 => field(4, Kind::Binary, 20), // MaxFloor
            1 => field(8, Kind::Price, 24), // StopPx
            7 => field(4, Kind::Letters, 32), // LocateBroker
            _ => Entry::Refused,
        },
        _ => Entry::Refused,
    }
}

// A bit of Purge Orders.
fn purge_orders(byte: u8, bit: u8) -> Entry
    ensures { result ≡ entry_of 0x47 byte bit }
{
    match byte {
        1 => match bit {
            0 => field(4, Kind::Letters, 0), // ClearingFirm
            2 => field(16, Kind::FilledText, 4), // MassCancelInst
            4 => field(20, Kind::Text, 20), // MassCancelID
            _ => Entry::Refused,
        },
        2 => match bit {
            0 => field(8, Kind::Alphanumeric, 40), // Symbol
            1 => field(8, Kind::Alphanumeric, 48), // SymbolSfx
            7 => field(1, Kind::Binary, 56), // MatchingUnit
            _ => Entry::Refused,
        },
        _ => Entry::Refused,
    }
}

// A bit of Order Execution: bytes 1 to 3 of Order Acknowledgment.
fn execution(byte: u8, bit: u8) -> Entry
    ensures { result ≡ entry_of 0x2C byte bit }
{
    match byte {
        1 => match bit {
            0 => field(1, Kind::Alphanumeric, 0), // Side
            2 => field(8, Kind::Price, 1), // Price
            3 => field(1, Kind::Text, 9), // ExecInst
            4 => field(1, Kind::Alphanumeric, 10), // OrdType
            5 => field(1, Kind::Alphanumeric, 11), // TimeInForce
            6 => field(4, Kind::Binary, 12), // MinQty
            _ => Entry::Refused,
        },
        2 => match bit {
            0 => field(8, Kind::Alphanumeric, 16), // Symbol
            1 => field(8, Kind::Alphanumeric, 24), // SymbolSfx
            6 => field(1, Kind::Letters, 32), // Capacity
            _ => Entry::Refused,
        },
        3 => match bit {
            0 => field(16, Kind::Text, 33), // Account
            1 => field(4, Kind::Letters, 49), // ClearingFirm
            2 => field(4, Kind::Text, 53), // ClearingAccount
            4 => field(4, Kind::Binary, 57), // MaxFloor
            6 => field(4, Kind::Binary, 61), // OrderQty
            _ => Entry::Refused,
        },
        _ => Entry::Refused,
    }
}

// A bit of Order Acknowledgment: byte 5, and Order Execution's bytes.
fn acknowledgment(byte: u8, bit: u8) -> Entry
    ensures { result ≡ entry_of 0x25 byte bit }
{
    match byte {
        5 => match bit {
            1 => field(4, Kind::Binary, 65), // LeavesQty
            2 => field(4, Kind::Binary, 69), // LastShares
            3 => field(8, Kind::Price, 73), // LastPx
            7 => field(8, Kind::Binary, 81), // ExpireTime
            _ => Entry::Refused,
        },
        _ => execution(byte, bit),
    }
}

// A bit of Order Rejected.
fn rejection(byte: u8, bit: u8) -> Entry
    ensures { result ≡ entry_of 0x26 byte bit }
{
    match byte {
        1 => match bit {
            0 => field(1, Kind::Alphanumeric, 0), // Side
            1 => field(8, Kind::Price, 1), // PegDifference
            2 => field(8, Kind::Price, 9), // Price
            3 => field(1, Kind::Text, 17), // ExecInst
            4 => field(1, Kind::Alphanumeric, 18), // OrdType
            5 => field(1, Kind::Alphanumeric, 19), // TimeInForce
            6 => field(4, Kind::Binary, 20), // MinQty
            _ => Entry::Refused,
        },
        2 => match bit {
            0 => field(8, Kind::Alphanumeric, 24), // Symbol
            1 => field(8, Kind::Alphanumeric, 32), // SymbolSfx
            6 => field(1, Kind::Letters, 40), // Capacity
            _ => Entry::Refused,
        },
        3 => match bit {
            0 => field(16, Kind::Text, 41), // Account
            1 => field(4, Kind::Letters, 57), // ClearingFirm
            2 => field(4, Kind::Text, 61), // ClearingAccount
            3 => field(1, Kind::Alphanumeric, 65), // DisplayIndicator
            4 => field(4, Kind::Binary, 66), // MaxFloor
            5 => field(2, Kind::Binary, 70), // DiscretionAmount
            6 => field(4, Kind::Binary, 72), // OrderQty
            7 => field(3, Kind::Alphanumeric, 76), // PreventMatch
            _ => Entry::Refused,
        },
        6 => match bit {
            0 => field(8, Kind::Binary, 79), // SecondaryOrderID
            3 => field(1, Kind::Alphanumeric, 87), // AttributedQuote
            4 => field(1, Kind::Text, 88), // ExtExecInst
            _ => Entry::Refused,
        },
        8 => match bit {
            1 => field(64, Kind::Text, 89), // EchoText
            2 => field(8, Kind::Price, 153), // StopPx
            3 => field(4, Kind::Text, 161), // RoutingInst
            4 => field(6, Kind::Text, 165), // RoutStrategy
            5 => field(3, Kind::Text, 171), // RouteDeliveryMethod
            6 => field(1, Kind::Text, 174), // ExDestination
            _ => Entry::Refused,
        },
        _ => Entry::Refused,
    }
}

// A bit of Cancel Rejected.
fn cancel_rejection(byte: u8, bit: u8) -> Entry
    ensures { result ≡ entry_of 0x2B byte bit }
{
    match byte {
        1 => match bit {
            0 => field(1, Kind::Alphanumeric, 0), // Side
            1 => field(8, Kind::Price, 1), // PegDifference
            2 => field(8, Kind::Price, 9), // Price
            3 => field(1, Kind::Text, 17), // ExecInst
            4 => field(1, Kind::Alphanumeric, 18), // OrdType
            5 => field(1, Kind::Alphanumeric, 19), // TimeInForce
            6 => field(4, Kind::Binary, 20), // MinQty
            _ => Entry::Refused,
        },
        2 => match bit {
            0 => field(8, Kind::Alphanumeric, 24), // Symbol
            1 => field(8, Kind::Alphanumeric, 32), // SymbolSfx
            6 => field(1, Kind::Letters, 40), // Capacity
            _ => Entry::Refused,
        },
        8 => match bit {
            1 => field(64, Kind::Text, 41), // EchoText
            2 => field(8, Kind::Price, 105), // StopPx
            _ => Entry::Refused,
        },
        _ => Entry::Refused,
    }
}

// What a bit of a bitfield byte selects in a message of a type. User Modify Rejected lists none.
pub fn entry_of(message: u8, byte: u8, bit: u8) -> Entry
    ensures { result ≡ entry_of message byte bit }
{
    match message {
        0x38 => new_order(byte, bit),
        0x39 => cancel_order(byte, bit),
        0x25 => acknowledgment(byte, bit),
        0x2C => execution(byte, bit),
        0x26 => rejection(byte, bit),
        0x2B => cancel_rejection(byte, bit),
        0x3A => modify_order(byte, bit),
        0x47 => purge_orders(byte, bit),
        0xB8 => options_order(byte, bit),
        _ => Entry::Refused,
    }
}
