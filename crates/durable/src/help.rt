//! What the program tells of itself.

/// What is printed where it is called with `--help`.
pub const HELP: &str = "durable SCRIPT DATABASE
durable --serve DATABASE
durable DATABASE

The first runs a script over a database, and prints what each line comes to. The second answers
requests, a line each, from standard input on standard output, until the input ends. The third lists
the invocations that the database holds.

SCRIPT is a file of text. Each line has words with one space between two: an event, or a question of
what is recorded. An empty line, or one that begins with `#`, says nothing. This script makes the
invocation i1, has an attempt at it with the handler `nap`, and shows what that has asked for:

    invoke i1 o 7 whole 1 -
    begin i1 nap 0
    feed i1 1 1000
    turn i1 1 9
    move i1 1 1000
    show i1

DATABASE is a file, which the next call goes on with, and which is made where there is none, but not
to be listed; or `:memory:`, for one that ends with the call.

It ends with 0 where all lines are done, with 1 where a line of a script is not understood, or one of
the input is too long, with 2 where the script, the input, the database or the output fails, and with 3
where it is called otherwise. docs/FORMATS.md has every line, and what it prints.
";
