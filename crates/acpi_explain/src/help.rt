//! The name of each refusal, and what to do.
ghost use Rattle.std.specs.Prelude.{◌≡◌};

use aml_world::Profile;

/// What is said of a refusal.
#[derive(Clone, Copy, Debug)]
pub struct Help {
    /// Its number, as `Refusal::number` gives it.
    pub number: u8,
    /// Its name, as `docs/REFUSALS.md` has it.
    pub name: &'static str,
    /// What to do, in one line.
    pub help: &'static str,
}

/// All refusals, in the order of their numbers.
const ROWS: [Help; 59] = [
    Help {
        number: 1,
        name: "NoRegister",
        help: "give the bytes of the register",
    },
    Help {
        number: 2,
        name: "Device",
        help: "see to the device behind the register space, or give a higher number behind --accesses",
    },
    Help {
        number: 10,
        name: "BadSignature",
        help: "make the machine text with tools/machine_text.py",
    },
    Help {
        number: 11,
        name: "BadChecksum",
        help: "make the machine text with tools/machine_text.py, which makes checksums right",
    },
    Help {
        number: 12,
        name: "BadLength",
        help: "compare the length at offset 4 of each table with its file",
    },
    Help {
        number: 13,
        name: "NotInImage",
        help: "make the machine text anew: a table is cut, or listed and not given",
    },
    Help {
        number: 14,
        name: "NoFadt",
        help: "list a FADT; tools/machine_text.py makes one where there is none",
    },
    Help {
        number: 15,
        name: "NoDsdt",
        help: "set the address of the DSDT in the FADT",
    },
    Help {
        number: 20,
        name: "BadName",
        help: "write a path as names prints it, in single quotes; if it is in AML, the AML is damaged",
    },
    Help {
        number: 21,
        name: "AboveRoot",
        help: "look at the name with iasl -d: it has more ^ than there are levels above it",
    },
    Help {
        number: 30,
        name: "BadOpcode",
        help: "look at the offset with iasl -l -d: damaged AML, or a term that ACPI no longer has",
    },
    Help {
        number: 31,
        name: "BadPkgLength",
        help: "look at the offset with iasl -l -d: damaged AML",
    },
    Help {
        number: 32,
        name: "Truncated",
        help: "look at the offset with iasl -l -d: cut AML, or a call with too few arguments",
    },
    Help {
        number: 33,
        name: "TooDeep",
        help: "no remedy: terms nest more than 64 levels deep",
    },
    Help {
        number: 34,
        name: "NotInBody",
        help: "no remedy: a control method that declares what only a table may",
    },
    Help {
        number: 40,
        name: "WrongType",
        help: "look at the term of the last line in: a value has a type that it can't use; without such a line evaluate the object with eval",
    },
    Help {
        number: 41,
        name: "EmptyValue",
        help: "look for a String or Buffer that is empty where an integer is wanted",
    },
    Help {
        number: 42,
        name: "DivideByZero",
        help: "give the register that the AML divides by its real value",
    },
    Help {
        number: 50,
        name: "FieldLimit",
        help: "look at the buffer: a field of it ends past its last byte, or has no bits",
    },
    Help {
        number: 51,
        name: "RegionLimit",
        help: "look at the operation region: a field lies outside, its place comes from a wrong register, or a bank field is too small",
    },
    Help {
        number: 60,
        name: "Exists",
        help: "give each table once; where the firmware itself declares a name twice, --profile wide goes on behind it",
    },
    Help {
        number: 61,
        name: "NotFound",
        help: "no table declares the name: look for its last segment in names; an SSDT may be missing, or out of order",
    },
    Help {
        number: 70,
        name: "OutOfSteps",
        help: "if a loop waits for a register, give it the value that ends the loop; else raise --steps",
    },
    Help {
        number: 71,
        name: "CallDepth",
        help: "no remedy: control methods call one another more than 32 deep",
    },
    Help {
        number: 72,
        name: "ArityChanged",
        help: "look at the count behind Method in names: a call has another number of arguments",
    },
    Help {
        number: 73,
        name: "Unsupported",
        help: "look at the opcode in docs/OPCODES.md: --profile wide evaluates some more; 0089 is Match, which iasl -d writes as Switch",
    },
    Help {
        number: 74,
        name: "SpaceKind",
        help: "no remedy: a field of an embedded controller, SMBus, CMOS or GPIO",
    },
    Help {
        number: 75,
        name: "DeadReference",
        help: "look at the method: a reference leads to a name that is gone",
    },
    Help {
        number: 76,
        name: "NoValue",
        help: "look at the method: a local that was never stored to, or a call without Return",
    },
    Help {
        number: 77,
        name: "Fatal",
        help: "look at the condition before Fatal: the firmware gives up",
    },
    Help {
        number: 78,
        name: "DeepPci",
        help: "--profile wide, with the bytes 0E and 19 of each bridge, where a device with _ADR is around the region; else no remedy",
    },
    Help {
        number: 79,
        name: "NotAcquired",
        help: "look at the method: a mutex is released that isn't acquired",
    },
    Help {
        number: 80,
        name: "IndexLimit",
        help: "look at the method: an index lies past the end",
    },
    Help {
        number: 81,
        name: "ObjectLimit",
        help: "no remedy: an object is too large, or there are too many",
    },
    Help {
        number: 90,
        name: "Spent",
        help: "load the machine anew",
    },
    Help {
        number: 99,
        name: "OutOfMemory",
        help: "give more memory",
    },
    Help {
        number: 100,
        name: "Edge",
        help: "no remedy: the link offers an edge-triggered interrupt",
    },
    Help {
        number: 101,
        name: "Exclusive",
        help: "--profile wide takes an exclusive interrupt as a shared one",
    },
    Help {
        number: 102,
        name: "Dependent",
        help: "no remedy: the link's _PRS has dependent functions",
    },
    Help {
        number: 103,
        name: "Several",
        help: "no remedy: the link's _PRS has a second interrupt descriptor",
    },
    Help {
        number: 104,
        name: "Descriptor",
        help: "look at the resource template: it has a descriptor of another kind",
    },
    Help {
        number: 105,
        name: "NoEnd",
        help: "evaluate the object with eval: its resource template has no end tag",
    },
    Help {
        number: 106,
        name: "NoInterrupt",
        help: "look at the register that the mask of _PRS comes from: no interrupt is offered",
    },
    Help {
        number: 107,
        name: "Source",
        help: "no remedy: the link's interrupt is one of another controller",
    },
    Help {
        number: 110,
        name: "NotPackage",
        help: "evaluate the _PRT with eval: it answers no package",
    },
    Help {
        number: 111,
        name: "BadEntry",
        help: "evaluate the _PRT with eval: an entry is malformed, or names its link by a String",
    },
    Help {
        number: 112,
        name: "BadPin",
        help: "evaluate the _PRT with eval: a pin is above 3",
    },
    Help {
        number: 113,
        name: "NotALink",
        help: "look at each link that the _PRT names, with names: if the _HID of one is a control method, --profile wide calls it; else a table is missing",
    },
    Help {
        number: 114,
        name: "SourceIndex",
        help: "no remedy: an entry has a source index at a link device",
    },
    Help {
        number: 120,
        name: "MixedPolarity",
        help: "evaluate each _PRS with eval: some are active-low, and some active-high",
    },
    Help {
        number: 121,
        name: "NoOffer",
        help: "no remedy: the link has no _PRS",
    },
    Help {
        number: 122,
        name: "TooMany",
        help: "no remedy: more than 256 links or 4096 pins",
    },
    Help {
        number: 123,
        name: "Avoided",
        help: "leave an interrupt that the link's _PRS offers out of --avoid, or run without --spare",
    },
    Help {
        number: 130,
        name: "BadLine",
        help: "look at the line; Windows line ends are no part of a report",
    },
    Help {
        number: 140,
        name: "MachineLine",
        help: "make the machine text with tools/machine_text.py, and read what that says",
    },
    Help {
        number: 141,
        name: "ReadFault",
        help: "give a file on the standard input",
    },
    Help {
        number: 142,
        name: "WriteFault",
        help: "look at the reader of the output",
    },
    Help {
        number: 143,
        name: "TextTooLong",
        help: "give the tables alone, in place of a dump of the memory",
    },
    Help {
        number: 144,
        name: "DepthSetting",
        help: "raise --calls or --levels: calls (with _OSI, _SEG, _BBN and _ADR) or terms nest deeper than these allow",
    },
];

/// What is said of the refusal with a number in the core profile; of a number that is none, nothing.
fn core_help(number: u8) -> Help
    ensures { result.number ≡ number }
{
    for row in &ROWS {
        if row.number == number {
            return *row;
        }
    }
    Help {
        number,
        name: "",
        help: "",
    }
}

/// What to do where a run in the wide profile was refused by a number for which it has more to say than the core one,
/// or for which the core one's help advises that profile.
fn wide_help(number: u8) -> Option<&'static str> {
    match number {
        60 => Some("look at the control method: it declares a name that stands already"),
        61 => Some(
            "no table declares the name: look for its last segment in names, and in the lines passed of route for an item that would have declared it",
        ),
        73 => Some("no remedy: docs/OPCODES.md lists the terms that aren't evaluated"),
        78 => Some(
            "give the bytes 0E and 19 of each bridge; no remedy where no device with _ADR is around the region, or one that is no bridge is in between",
        ),
        113 => Some("look at the link with names: its _HID isn't PNP0C0F, or a table is missing"),
        _ => None,
    }
}

/// What is said of the refusal with a number, in a profile; of a number that is none, nothing.
pub fn help_for(number: u8, profile: Profile) -> Help
    ensures { result.number ≡ number }
{
    let row = core_help(number);
    match profile {
        Profile::Core => row,
        Profile::Wide => match wide_help(number) {
            Some(help) => Help { help, ..row },
            None => row,
        },
    }
}
