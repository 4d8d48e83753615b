//! The texts at the end of the help of the program and of its commands: what their exit statuses and their refusals'
//! numbers mean.

/// The program's version, which `--version` prints.
pub(crate) const VERSION: &str = "0.1.0";

pub(crate) const PROGRAM: &str = "\
Every command reads its input from the standard input, as in 'acpiroute route < machine.txt'. tools/machine_text.py \
makes a machine text of ACPI tables.

Exit status: 0 where all went well, 1 for a refusal, 2 for a faulty command line, 3 where setting a link was \
refused, 4 where check says no.

A refusal is one line on the error output: 'refused' and its number. With --profile wide lines 'passed ..' may \
stand before it.
  1 and 2     a register doesn't answer
  10 to 15    the ACPI tables can't be used
  20 to 34    the AML isn't well formed
  40 to 61    a value, a field or a name doesn't fit its use
  70 to 81    an evaluation ends without a value
  90 and 99   out of memory
  100 to 107  what a link device offers can't be used
  110 to 123  the interrupts can't be routed
  130         a report can't be read
  140 to 143  the input can't be read, or the output can't be written
  144         calls or terms are nested deeper than --calls or --levels allow
Behind the number stands where or what: 'at N' an offset, 'op XXXX' an opcode, 'tag N' a descriptor, 'line N' a \
line, or a path. 'acpiroute why' tells the table or object, the register and what to do; docs/REFUSALS.md says what \
each number means.";

pub(crate) const ROUTE: &str = "\
The machine text is read from the standard input: acpiroute route < machine.txt

--steps bounds the terms that an evaluation begins, and --accesses the accesses of registers in the whole run: one \
term may make many. --calls and --levels bound how deep control methods call one another, and how deep terms nest: \
with fewer than 32 and 64, what is deeper is refused by number 144.

The numbers of --avoid are separated by commas, without blanks: --avoid 3,4,7. Any other text is told by the line \
'bad --avoid'. With the 8259 controllers, --mode pic, devices of the ISA bus may use interrupts that links offer, \
and only those of the System Control Interrupt and of wired pins are counted: --avoid 1,3,4,6,7,12,14,15 leaves \
those of keyboard, serial ports, floppy disk, parallel port, mouse and disks to them.

With --spare these are asked for instead: every device that has no line 'link', is present by its own _STA and has \
a _CRS. No link device is given an interrupt that one of these has. The report tells them in lines 'spared DEVICE \
N..', and in 'unread DEVICE R' a device whose _STA or _CRS was refused by number R: nothing is spared for it. \
Interrupts that no _CRS gives aren't spared.

Without --spread only the busiest interrupt counts: others may be shared more than they need be, or stay idle. With \
--spread as few interrupts as possible are as busy as that one, then as few as possible nearly so, and so on.

With --kernel the report has lines more, behind all others: 'trigger link PATH level low', 'trigger wired N ..' and \
'trigger sci N ..' say how an interrupt is triggered, and 'bus DEVICE S B' which bus the routing table of a device \
is for: S is its PCI segment group and B its bus. Where that is refused, the line has 'refused R' in place of both.

An interrupt of --avoid is given to no link device; what is wired to it stays there, and counts. Where all that a \
link device offers is avoided or spared, the machine is refused by number 123. The report's line 'sci N' says that \
the System Control Interrupt is one source on N; 'sci none', that there is none.

The core profile, the default, refuses some terms of AML by number 73, Match among them, which many boards need; a \
link device that offers interrupts for itself alone by number 101; one whose _HID is a control method by number \
113; and PCI configuration registers behind a bridge by number 78. With --profile wide these terms are evaluated, \
such offers are taken as shared ones, the method is called, and the registers are reached. An item of a table that \
is refused outside of control methods, such as a faulty declaration, or a refused _INI or _PIC, is passed over, and \
told by a line 'passed R P' on the errors: its number and its scope.

Exit status: 0 for a report, 1 for a refusal, 2 for a faulty command line, 3 where setting a link was refused, \
which the report tells. 'acpiroute --help' lists the refusals.";

pub(crate) const WHY: &str = "\
The machine text is read from the standard input: acpiroute why < machine.txt

It makes the run that route makes with these options, and writes what ended it, a line each: 'refused', the number \
and the name of the refusal; 'while' and what was done then, with the path of the object or the table; 'in' and a \
term that was being evaluated, the outermost first: its control method or table, its offset, opcode and name; \
'name' and the name that was looked for, with its scope; 'access', the last access of a register where that is what \
failed, or where a loop used up the steps: 'read' or 'write', the place as a machine text has it, and how many \
bytes; 'steps', how many were taken; and 'help', what to do. A run that isn't refused is told by 'not refused', and \
by a line 'link PATH ..' for each link device that refused its setting, whose _CRS was refused then, or that reads \
back something else than it was given.

With 'eval' and a path behind it, it makes the run that eval makes: acpiroute why eval '\\_SB_.PCI0._PRT' < \
machine.txt

With --registers the run goes on where the machine text lacks a register, with 0 in place of each missing byte, and \
the lines of these bytes are written, to be filled in and put behind the machine text. The last line begins with # \
and tells how that run ended.

Exit status: 0 where it can tell, 1 where the input itself is refused, 2 for a faulty command line. 'acpiroute \
--help' lists the refusals.";

pub(crate) const NAMES: &str = "\
The machine text is read from the standard input: acpiroute names < machine.txt

With --profile wide more terms of AML are evaluated while the tables are loaded than in the core profile, and \
faulty declarations are passed over, each told by a line 'passed R P' on the errors.

Exit status: 0 for the names, 1 for a refusal, 2 for a faulty command line. 'acpiroute --help' lists the refusals.";

pub(crate) const EVAL: &str = "\
The machine text is read from the standard input: acpiroute eval '\\_SB_.PCI0._PRT' < machine.txt

Write the path between single quotes, for the shell, and as 'acpiroute names' prints it: capitals, and four \
characters for each name. tools/show_value.py shows the value so that people can read it.

With --profile wide more terms of AML are evaluated than in the core profile, which refuses them by number 73, and \
faulty declarations and a refused _INI or _PIC are passed over, each told by a line 'passed R P' on the errors.

Exit status: 0 for the value, 1 for a refusal, 2 for a faulty command line. 'acpiroute --help' lists the refusals.";

pub(crate) const CHECK: &str = "\
The report is read from the standard input: acpiroute check < report

The lines 'link', up to 'now', 'wired', 'sci', 'avoid' and 'spared' are believed: whether they tell the machine \
truly, check can't know. By them the lines 'give', 'busiest', 'bound' and 'spread' are tested. The lines 'mode', \
'ioapic', 'override', 'pin', 'set' and 'after' are passed over, and of 'unread', 'first', 'trigger' and 'bus' the \
form alone is tested.

Exit status: 0 where the claim holds, 4 where it doesn't, 1 for a refusal, 2 for a faulty command line. 'acpiroute \
--help' lists the refusals.";
