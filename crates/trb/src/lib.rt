// The TRBs of the xHCI specification 1.2: document 01's "Words of a TRB".
//
// A TRB is four words of 32 bits. This crate knows no endpoint and no ring, and has no function: `Trb` names the fields that a driver sets, and
// specs/Layouts.antt has the layouts, field by field, with the standard's section numbers. specs/Cycle.antt has the standard's cycle rule.
#![tactic(auto)]

// The four words of a TRB or of an event.
#[derive(Clone, Copy)]
pub struct Words {
    pub w0: u32,
    pub w1: u32,
    pub w2: u32,
    pub w3: u32,
}

// Every TRB that a driver stores or sends, with the fields that it sets. A value too large for its field is cut to the field's width.
#[derive(Clone, Copy)]
pub enum Trb {
    Normal {
        address: u64,
        length: u32,
        size: u32,
        target: u32,
        short: bool,
        chain: bool,
        interrupt: bool,
    },
    Setup {
        request_type: u8,
        request: u8,
        value: u16,
        index: u16,
        length: u16,
        transfer: u32,
    },
    Data {
        address: u64,
        length: u32,
        short: bool,
        incoming: bool,
    },
    Status {
        interrupt: bool,
        incoming: bool,
    },
    Isoch {
        address: u64,
        length: u32,
        bursts: u32,
        target: u32,
        short: bool,
        chain: bool,
        interrupt: bool,
        block: bool,
        last: u32,
        frame: u32,
        asap: bool,
    },
    Link {
        address: u64,
        toggle: bool,
        chain: bool,
    },
    ResetEndpoint {
        endpoint: u8,
        slot: u8,
    },
    StopEndpoint {
        endpoint: u8,
        slot: u8,
    },
    SetDequeue {
        address: u64,
        state: bool,
        endpoint: u8,
        slot: u8,
    },
}
