//! The options and the operands of the commands, as clap takes them.
ghost use Rattle.std.specs.Prelude.{◌≡◌, false};
ghost use Rattle.clap.specs.Words.{rule_of};
ghost use Rattle.acpiroute_shell.specs.CommandLine.{mode_rule, steps_rule, calls_rule, levels_rule, profile_rule, accesses_rule, dry_rule};
ghost use Rattle.acpiroute_shell.specs.CommandLine.{avoid_rule, spare_rule, spread_rule, path_rule, arguments_rule, kernel_rule};

use clap::{Arg, ArgAction};
use std::alloc::Global;

pub(crate) fn mode_arg<'a>(alloc: Global) -> Arg<'a>
    ensures rule { rule_of result ≡ mode_rule }
    ensures local { result.global ≡ false }
{
    Arg::new(alloc, "mode").long("mode").value_name("MODE").help(
        "Which interrupt controllers are used: apic or pic, by default apic",
    )
}

pub(crate) fn steps_arg<'a>(alloc: Global) -> Arg<'a>
    ensures rule { rule_of result ≡ steps_rule }
    ensures local { result.global ≡ false }
{
    Arg::new(alloc, "steps").long("steps").value_name("N").help(
        "The budget of steps, from 1 to 1000000000, by default 1000000",
    )
}

pub(crate) fn profile_arg<'a>(alloc: Global) -> Arg<'a>
    ensures rule { rule_of result ≡ profile_rule }
    ensures local { result.global ≡ false }
{
    Arg::new(alloc, "profile")
        .long("profile")
        .value_name("PROFILE")
        .help("How much of AML is evaluated: core or wide, by default core")
}

pub(crate) fn calls_arg<'a>(alloc: Global) -> Arg<'a>
    ensures rule { rule_of result ≡ calls_rule }
    ensures local { result.global ≡ false }
{
    Arg::new(alloc, "calls").long("calls").value_name("N").help(
        "How deep calls may nest (control methods, _OSI, _SEG, _BBN and _ADR), from 1 to 32, by default 32",
    )
}

pub(crate) fn levels_arg<'a>(alloc: Global) -> Arg<'a>
    ensures rule { rule_of result ≡ levels_rule }
    ensures local { result.global ≡ false }
{
    Arg::new(alloc, "levels")
        .long("levels")
        .value_name("N")
        .help("How deep terms may nest, from 1 to 64, by default 64")
}

pub(crate) fn accesses_arg<'a>(alloc: Global) -> Arg<'a>
    ensures rule { rule_of result ≡ accesses_rule }
    ensures local { result.global ≡ false }
{
    Arg::new(alloc, "accesses")
        .long("accesses")
        .value_name("N")
        .help(
            "How many accesses of registers are made, each further one refused as 2; by default all",
        )
}

pub(crate) fn dry_arg<'a>(alloc: Global) -> Arg<'a>
    ensures rule { rule_of result ≡ dry_rule }
    ensures local { result.global ≡ false }
{
    Arg::new(alloc, "dry")
        .long("dry")
        .action(ArgAction::SetTrue)
        .help("Set no link device")
}

pub(crate) fn avoid_arg<'a>(alloc: Global) -> Arg<'a>
    ensures rule { rule_of result ≡ avoid_rule }
    ensures local { result.global ≡ false }
{
    Arg::new(alloc, "avoid")
        .long("avoid")
        .value_name("LIST")
        .help(
            "Interrupts that no link device is given: 1 to 255 decimal numbers, separated by commas, as 3,4,7",
        )
}

pub(crate) fn spare_arg<'a>(alloc: Global) -> Arg<'a>
    ensures rule { rule_of result ≡ spare_rule }
    ensures local { result.global ≡ false }
{
    Arg::new(alloc, "spare")
        .long("spare")
        .action(ArgAction::SetTrue)
        .help("Give no link device an interrupt that the _CRS of another present device has")
}

pub(crate) fn spread_arg<'a>(alloc: Global) -> Arg<'a>
    ensures rule { rule_of result ≡ spread_rule }
    ensures local { result.global ≡ false }
{
    Arg::new(alloc, "spread")
        .long("spread")
        .action(ArgAction::SetTrue)
        .help("Let link devices share interrupts as little as they can")
}

pub(crate) fn kernel_arg<'a>(alloc: Global) -> Arg<'a>
    ensures rule { rule_of result ≡ kernel_rule }
    ensures local { result.global ≡ false }
{
    Arg::new(alloc, "kernel")
        .long("kernel")
        .action(ArgAction::SetTrue)
        .help("Write how interrupts are triggered, and the bus of each routing table, for a kernel")
}

pub(crate) fn path_arg<'a>(alloc: Global) -> Arg<'a>
    ensures rule { rule_of result ≡ path_rule }
    ensures local { result.global ≡ false }
{
    Arg::new(alloc, "path")
        .value_name("PATH")
        .required(true)
        .help("The path of an object, as \\_SB_.PCI0._PRT")
}

pub(crate) fn arguments_arg<'a>(alloc: Global) -> Arg<'a>
    ensures rule { rule_of result ≡ arguments_rule }
    ensures local { result.global ≡ false }
{
    Arg::new(alloc, "arguments")
        .value_name("N")
        .num_args(1..=7)
        .help(
            "The arguments of a control method, at most 7: decimal numbers below 2^64, s:TEXT for a string, b:HEX for a buffer",
        )
}
