//! Which command lines are refused, and what is said then.

use crate::tests::cases::all_hold;
use crate::tests::command_lines::Wanted::{self, Ends};
use std::test::*;

static MISTAKES: [(&str, Wanted); 37] = [
    (
        "remoted unary",
        Ends(
            2,
            "error: the following required arguments were not provided:\n  \
            <FILE>\n\n\
            Usage: remoted unary <FILE>\n\n\
            For more information, try '--help'.\n",
        ),
    ),
    (
        "remoted unary one two",
        Ends(
            2,
            "error: unexpected argument 'two' found\n\n\
            Usage: remoted unary [OPTIONS] <FILE>\n\n\
            For more information, try '--help'.\n",
        ),
    ),
    (
        "remoted replay",
        Ends(
            2,
            "error: the following required arguments were not provided:\n  \
            <FILE>\n\n\
            Usage: remoted replay <FILE>\n\n\
            For more information, try '--help'.\n",
        ),
    ),
    (
        "remoted other",
        Ends(
            2,
            "error: unrecognized subcommand 'other'\n\n\
            Usage: remoted [COMMAND]\n\n\
            For more information, try '--help'.\n",
        ),
    ),
    (
        "remoted probe --send in.bin --want 1",
        Ends(
            2,
            "error: the following required arguments were not provided:\n  \
            --port <P>\n\n\
            Usage: remoted probe --port <P> --send <FILE> --want <N>\n\n\
            For more information, try '--help'.\n",
        ),
    ),
    (
        "remoted probe --port 1 --want 1",
        Ends(
            2,
            "error: the following required arguments were not provided:\n  \
            --send <FILE>\n\n\
            Usage: remoted probe --port <P> --send <FILE> --want <N>\n\n\
            For more information, try '--help'.\n",
        ),
    ),
    (
        "remoted probe --port 1 --send in.bin",
        Ends(
            2,
            "error: the following required arguments were not provided:\n  \
            --want <N>\n\n\
            Usage: remoted probe --port <P> --send <FILE> --want <N>\n\n\
            For more information, try '--help'.\n",
        ),
    ),
    (
        "remoted probe --port 0 --send in.bin --want 1",
        Ends(
            2,
            "error: invalid value '0' for '--port <P>': 0 is not in 1..=65535\n\n\
            For more information, try '--help'.\n",
        ),
    ),
    (
        "remoted probe --port 65536 --send in.bin --want 1",
        Ends(
            2,
            "error: invalid value '65536' for '--port <P>': 65536 is not in 1..=65535\n\n\
            For more information, try '--help'.\n",
        ),
    ),
    (
        "remoted probe --port x --send in.bin --want 1",
        Ends(
            2,
            "error: invalid value 'x' for '--port <P>': invalid digit found in string\n\n\
            For more information, try '--help'.\n",
        ),
    ),
    (
        "remoted probe --port 1 --send in.bin --want -1",
        Ends(
            2,
            "error: unexpected argument '-1' found\n\n\
            Usage: remoted probe [OPTIONS] --port <P> --send <FILE> --want <N>\n\n\
            For more information, try '--help'.\n",
        ),
    ),
    (
        "remoted probe --port 1 --send in.bin --want 1 --turns 9223372036854775808",
        Ends(
            2,
            "error: invalid value '9223372036854775808' for '--turns <T>': 9223372036854775808 \
            is not in 0..=9223372036854775807\n\n\
            For more information, try '--help'.\n",
        ),
    ),
    (
        "remoted serve a:1:2:3",
        Ends(
            2,
            "error: the following required arguments were not provided:\n  \
            --work <DIR>\n\n\
            Usage: remoted serve --work <DIR> <NAME:PORT:QUOTA:SLOTS[:PARENT]>...\n\n\
            For more information, try '--help'.\n",
        ),
    ),
    (
        "remoted serve --work here",
        Ends(
            2,
            "error: the following required arguments were not provided:\n  \
            <NAME:PORT:QUOTA:SLOTS[:PARENT]>...\n\n\
            Usage: remoted serve --work <DIR> <NAME:PORT:QUOTA:SLOTS[:PARENT]>...\n\n\
            For more information, try '--help'.\n",
        ),
    ),
    (
        "remoted serve --work here --turns -1 a:1:2:3",
        Ends(
            2,
            "error: unexpected argument '-1' found\n\n  \
            tip: to pass '-1' as a value, use '-- -1'\n\n\
            Usage: remoted serve [OPTIONS] --work <DIR> <NAME:PORT:QUOTA:SLOTS[:PARENT]>...\n\n\
            For more information, try '--help'.\n",
        ),
    ),
    (
        "remoted serve --work here --turns 9223372036854775808 a:1:2:3",
        Ends(
            2,
            "error: --turns is not a number from 0 to 9223372036854775807, and not endless: \
            '9223372036854775808'\n\n\
            Usage: remoted serve [OPTIONS] --work <DIR> <NAME:PORT:QUOTA:SLOTS[:PARENT]>...\n\n\
            For more information, try '--help'.\n",
        ),
    ),
    (
        "remoted serve --work here --turns 18446744073709551615 a:1:2:3",
        Ends(
            2,
            "error: --turns is not a number from 0 to 9223372036854775807, and not endless: \
            '18446744073709551615'\n\n\
            Usage: remoted serve [OPTIONS] --work <DIR> <NAME:PORT:QUOTA:SLOTS[:PARENT]>...\n\n\
            For more information, try '--help'.\n",
        ),
    ),
    (
        "remoted serve --work here --turns Endless a:1:2:3",
        Ends(
            2,
            "error: --turns is not a number from 0 to 9223372036854775807, and not endless: \
            'Endless'\n\n\
            Usage: remoted serve [OPTIONS] --work <DIR> <NAME:PORT:QUOTA:SLOTS[:PARENT]>...\n\n\
            For more information, try '--help'.\n",
        ),
    ),
    (
        "remoted serve --work here --turns= a:1:2:3",
        Ends(
            2,
            "error: --turns is not a number from 0 to 9223372036854775807, and not endless: \
            ''\n\n\
            Usage: remoted serve [OPTIONS] --work <DIR> <NAME:PORT:QUOTA:SLOTS[:PARENT]>...\n\n\
            For more information, try '--help'.\n",
        ),
    ),
    (
        "remoted serve --work here --metrics= a:1:2:3",
        Ends(
            2,
            "error: a value is required for '--metrics <FILE>' but none was supplied\n\n\
            For more information, try '--help'.\n",
        ),
    ),
    (
        "remoted serve --work here --end= a:1:2:3",
        Ends(
            2,
            "error: a value is required for '--end <FILE>' but none was supplied\n\n\
            For more information, try '--help'.\n",
        ),
    ),
    (
        "remoted serve --work here --stop= a:1:2:3",
        Ends(
            2,
            "error: a value is required for '--stop <FILE>' but none was supplied\n\n\
            For more information, try '--help'.\n",
        ),
    ),
    (
        "remoted serve --work here --stop a --stop b a:1:2:3",
        Ends(
            2,
            "error: the argument '--stop <FILE>' cannot be used multiple times\n\n\
            Usage: remoted serve [OPTIONS] --work <DIR> <NAME:PORT:QUOTA:SLOTS[:PARENT]>...\n\n\
            For more information, try '--help'.\n",
        ),
    ),
    (
        "remoted serve --work here --stop",
        Ends(
            2,
            "error: a value is required for '--stop <FILE>' but none was supplied\n\n\
            For more information, try '--help'.\n",
        ),
    ),
    (
        "remoted probe --port 1 --send in.bin --want 1 --turns endless",
        Ends(
            2,
            "error: invalid value 'endless' for '--turns <T>': invalid digit found in string\n\n\
            For more information, try '--help'.\n",
        ),
    ),
    (
        "remoted check",
        Ends(
            2,
            "error: neither --port is given, nor --metrics\n\n\
            Usage: remoted check [OPTIONS]\n\n\
            For more information, try '--help'.\n",
        ),
    ),
    (
        "remoted check --port 1 --metrics out",
        Ends(
            2,
            "error: --port and --metrics are given, and one of them is asked at a time\n\n\
            Usage: remoted check [OPTIONS]\n\n\
            For more information, try '--help'.\n",
        ),
    ),
    (
        "remoted serve --work here --blobs 0 a:1:2:3",
        Ends(
            2,
            "error: --blobs is not a number from 1 to 2147483648, as 65536, 64K or 1M: '0'\n\n\
            Usage: remoted serve [OPTIONS] --work <DIR> <NAME:PORT:QUOTA:SLOTS[:PARENT]>...\n\n\
            For more information, try '--help'.\n",
        ),
    ),
    (
        "remoted replay --results 2147483649 in.txt",
        Ends(
            2,
            "error: --results is not a number from 0 to 2147483648, as 10000 or 64K: \
            '2147483649'\n\n\
            Usage: remoted replay [OPTIONS] <FILE>\n\n\
            For more information, try '--help'.\n",
        ),
    ),
    (
        "remoted serve --work here --result-bytes 4095K a:1:2:3",
        Ends(
            2,
            "error: --result-bytes is not a number of bytes from 4194304 to 2147483648, as 64M \
            or 2G: '4095K'\n\n\
            Usage: remoted serve [OPTIONS] --work <DIR> <NAME:PORT:QUOTA:SLOTS[:PARENT]>...\n\n\
            For more information, try '--help'.\n",
        ),
    ),
    (
        "remoted serve --work here --launcher l --made-trees 20g a:1:2:3",
        Ends(
            2,
            "error: --made-trees is not a number of bytes from 0 to 9223372036854775807, as 500M \
            or 20G: '20g'\n\n\
            Usage: remoted serve [OPTIONS] --work <DIR> <NAME:PORT:QUOTA:SLOTS[:PARENT]>...\n\n\
            For more information, try '--help'.\n",
        ),
    ),
    (
        "remoted serve --work here --made-trees 1 a:1:2:3",
        Ends(
            2,
            "error: --made-trees is given, and no --launcher, which is to bind them\n\n\
            Usage: remoted serve [OPTIONS] --work <DIR> <NAME:PORT:QUOTA:SLOTS[:PARENT]>...\n\n\
            For more information, try '--help'.\n",
        ),
    ),
    (
        "remoted unary --window 2G in.txt",
        Ends(
            2,
            "error: --window is not a number of bytes from 65535 to 2147483647, as 64K or 4M: \
            '2G'\n\n\
            Usage: remoted unary [OPTIONS] <FILE>\n\n\
            For more information, try '--help'.\n",
        ),
    ),
    (
        "remoted check --port 0",
        Ends(
            2,
            "error: invalid value '0' for '--port <P>': 0 is not in 1..=65535\n\n\
            For more information, try '--help'.\n",
        ),
    ),
    (
        "remoted check --port 1 --seconds 0",
        Ends(
            2,
            "error: invalid value '0' for '--seconds <N>': 0 is not in 1..=3600\n\n\
            For more information, try '--help'.\n",
        ),
    ),
    (
        "remoted check --port 1 --seconds 3601",
        Ends(
            2,
            "error: invalid value '3601' for '--seconds <N>': 3601 is not in 1..=3600\n\n\
            For more information, try '--help'.\n",
        ),
    ),
    (
        "remoted check --port 1 --instance=",
        Ends(
            2,
            "error: a value is required for '--instance <NAME>' but none was supplied\n\n\
            For more information, try '--help'.\n",
        ),
    ),
];

static NO_NUMBERS_OF_BYTES: [(&str, Wanted); 10] = [
    (
        "remoted probe --port 1 --send in.bin --want 9223372036854775808",
        Ends(
            2,
            "error: --want is not a number of bytes from 0 to 9223372036854775807, as 1000, 64K, \
            500M or 8G: '9223372036854775808'\n\n\
            Usage: remoted probe [OPTIONS] --port <P> --send <FILE> --want <N>\n\n\
            For more information, try '--help'.\n",
        ),
    ),
    (
        "remoted probe --port 1 --send in.bin --want 8388608T",
        Ends(
            2,
            "error: --want is not a number of bytes from 0 to 9223372036854775807, as 1000, 64K, \
            500M or 8G: '8388608T'\n\n\
            Usage: remoted probe [OPTIONS] --port <P> --send <FILE> --want <N>\n\n\
            For more information, try '--help'.\n",
        ),
    ),
    (
        "remoted probe --port 1 --send in.bin --want 16777216T",
        Ends(
            2,
            "error: --want is not a number of bytes from 0 to 9223372036854775807, as 1000, 64K, \
            500M or 8G: '16777216T'\n\n\
            Usage: remoted probe [OPTIONS] --port <P> --send <FILE> --want <N>\n\n\
            For more information, try '--help'.\n",
        ),
    ),
    (
        "remoted probe --port 1 --send in.bin --want 8g",
        Ends(
            2,
            "error: --want is not a number of bytes from 0 to 9223372036854775807, as 1000, 64K, \
            500M or 8G: '8g'\n\n\
            Usage: remoted probe [OPTIONS] --port <P> --send <FILE> --want <N>\n\n\
            For more information, try '--help'.\n",
        ),
    ),
    (
        "remoted probe --port 1 --send in.bin --want 8GB",
        Ends(
            2,
            "error: --want is not a number of bytes from 0 to 9223372036854775807, as 1000, 64K, \
            500M or 8G: '8GB'\n\n\
            Usage: remoted probe [OPTIONS] --port <P> --send <FILE> --want <N>\n\n\
            For more information, try '--help'.\n",
        ),
    ),
    (
        "remoted probe --port 1 --send in.bin --want 8G1",
        Ends(
            2,
            "error: --want is not a number of bytes from 0 to 9223372036854775807, as 1000, 64K, \
            500M or 8G: '8G1'\n\n\
            Usage: remoted probe [OPTIONS] --port <P> --send <FILE> --want <N>\n\n\
            For more information, try '--help'.\n",
        ),
    ),
    (
        "remoted probe --port 1 --send in.bin --want G",
        Ends(
            2,
            "error: --want is not a number of bytes from 0 to 9223372036854775807, as 1000, 64K, \
            500M or 8G: 'G'\n\n\
            Usage: remoted probe [OPTIONS] --port <P> --send <FILE> --want <N>\n\n\
            For more information, try '--help'.\n",
        ),
    ),
    (
        "remoted probe --port 1 --send in.bin --want=",
        Ends(
            2,
            "error: --want is not a number of bytes from 0 to 9223372036854775807, as 1000, 64K, \
            500M or 8G: ''\n\n\
            Usage: remoted probe [OPTIONS] --port <P> --send <FILE> --want <N>\n\n\
            For more information, try '--help'.\n",
        ),
    ),
    (
        "remoted probe --port 1 --send in.bin --want 1.5G",
        Ends(
            2,
            "error: --want is not a number of bytes from 0 to 9223372036854775807, as 1000, 64K, \
            500M or 8G: '1.5G'\n\n\
            Usage: remoted probe [OPTIONS] --port <P> --send <FILE> --want <N>\n\n\
            For more information, try '--help'.\n",
        ),
    ),
    (
        "remoted probe --port 1 --send in.bin --want +8G",
        Ends(
            2,
            "error: --want is not a number of bytes from 0 to 9223372036854775807, as 1000, 64K, \
            500M or 8G: '+8G'\n\n\
            Usage: remoted probe [OPTIONS] --port <P> --send <FILE> --want <N>\n\n\
            For more information, try '--help'.\n",
        ),
    ),
];

#[test]
fn mistakes(rt: HostRuntime) {
    all_hold(&rt, &rt, &MISTAKES);
    all_hold(&rt, &rt, &NO_NUMBERS_OF_BYTES);
}
