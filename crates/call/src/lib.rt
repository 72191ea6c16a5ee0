// The calls that compartments make. Operands are any numbers: the machine checks them.
#![tactic(auto)]

#[derive(Clone, Copy, Debug, PartialEq, Eq)]
pub enum Call {
    Grant {
        compartment: u32,
        register: u32,
        granules: u32,
    },
    Derive {
        compartment: u32,
        register: u32,
        source: u32,
        offset: u32,
        length: u32,
        permissions: u32,
    },
    Getb {
        compartment: u32,
        register: u32,
        offset: u32,
    },
    Putb {
        compartment: u32,
        register: u32,
        offset: u32,
        value: u32,
    },
    Putc {
        compartment: u32,
        register: u32,
        offset: u32,
        source: u32,
    },
    Getc {
        compartment: u32,
        register: u32,
        offset: u32,
        target: u32,
    },
    Give {
        compartment: u32,
        register: u32,
        recipient: u32,
        target: u32,
    },
    Drop {
        compartment: u32,
        register: u32,
    },
}
