//! What help says.

use crate::tests::cases::all_hold;
use crate::tests::command_lines::Wanted::{self, Ends};
use std::test::*;

static HELP: [(&str, Wanted); 7] = [
    ("remoted --version", Ends(0, "remoted 0.2.0\n")),
    (
        "remoted --help",
        Ends(
            0,
            "A remote build cache for Bazel. Without a command it carries out the script on \
            standard input\n\n\
            Usage: remoted [COMMAND]\n\n\
            Commands:\n  \
            unary   Carry out a script of calls on instances of its own, without connections\n  \
            replay  Carry out a script of events on a server of its own, and print what it \
            sends\n  \
            probe   Send a file's bytes to a server, and print the first bytes that come back\n  \
            check   Ask a server on a port what it can do: status 0 where it answers in time, \
            else 4; or tell a server's figures in words\n  \
            serve   Serve instances on ports of this host\n  \
            help    Print this message or the help of the given subcommand(s)\n\n\
            Options:\n  \
            -h, --help     Print help\n  \
            -V, --version  Print version\n\n\
            A number of bytes, blobs or results in an option may have a unit: K, M, G or T, powers \
            of 1,024.\n\
            8G is 8589934592, 500M is 524288000. In a word for an instance it is digits \
            alone.\n\n\
            Statuses:\n  \
            0  done\n  \
            1  something cannot be read, written, made, opened or begun\n  \
            2  the command line is wrong\n  \
            3  unary, replay: a line of the script is wrong, and nothing was carried out\n  \
            4  probe: too few bytes came; check: the server does not answer, or its figures are \
            old\n  \
            5  out of memory\n\
            Standard error says why, in lines that begin with `remoted: ` or `error: `.\n\n\
            Examples:\n  \
            remoted serve --work /var/lib/remoted --turns endless red:8980:8589934592:0\n  \
            remoted check --port 8980\n  \
            remoted serve --help\n",
        ),
    ),
    (
        "remoted unary --help",
        Ends(
            0,
            "Carry out a script of calls on instances of its own, without connections\n\n\
            Usage: remoted unary [OPTIONS] <FILE>\n\n\
            Arguments:\n  \
            <FILE>  The script: lines `instance NAME QUOTA`, `put NAME HEX` and `call NAME \
            METHOD HEX`\n\n\
            Options:\n      \
            --blobs <N>         How many blobs each instance stores at most, 1 to 2147483648. \
            Each that is there takes some 570 bytes of memory beside its own [default: 65536]\n      \
            --results <N>       How many results of actions each instance keeps at most, 0 to \
            2147483648. Each that is there takes some 250 bytes of memory beside its own \
            [default: 10000]\n      \
            --result-bytes <N>  How many bytes the results of each instance have together at \
            most, 4M to 2G. They count in no quota [default: 67108864]\n      \
            --window <N>        How many bytes a client may send of a call, and on a connection, \
            before the server has read them, 65535 to 2147483647. An upload brings so many in a \
            round trip at most. It takes no memory by itself [default: 65535]\n  \
            -h, --help              Print help\n\n\
            QUOTA is in bytes, 0 to 1099511627776, in digits alone. HEX is bytes, two digits for \
            each.\n\
            --blobs holds for each instance; the other three numbers have no effect on these \
            calls.\n\n\
            Statuses:\n  \
            0  done\n  \
            1  FILE cannot be read, or standard output cannot be written\n  \
            3  `bad line N`: line N has no form; nothing was carried out\n  \
            5  out of memory: what was printed stands\n\n\
            Examples:\n  \
            remoted unary calls.txt\n  \
            printf 'instance a 100\\nput a 616263\\n' | remoted\n",
        ),
    ),
    (
        "remoted help replay",
        Ends(
            0,
            "Carry out a script of events on a server of its own, and print what it sends\n\n\
            Usage: remoted replay [OPTIONS] <FILE>\n\n\
            Arguments:\n  \
            <FILE>  The script: lines `instance NAME QUOTA SLOTS [PARENT]`, and then one line \
            for each event\n\n\
            Options:\n      \
            --blobs <N>         How many blobs each instance stores at most, 1 to 2147483648. \
            Each that is there takes some 570 bytes of memory beside its own [default: 65536]\n      \
            --results <N>       How many results of actions each instance keeps at most, 0 to \
            2147483648. Each that is there takes some 250 bytes of memory beside its own \
            [default: 10000]\n      \
            --result-bytes <N>  How many bytes the results of each instance have together at \
            most, 4M to 2G. They count in no quota [default: 67108864]\n      \
            --window <N>        How many bytes a client may send of a call, and on a connection, \
            before the server has read them, 65535 to 2147483647. An upload brings so many in a \
            round trip at most. It takes no memory by itself [default: 65535]\n  \
            -h, --help              Print help\n\n\
            QUOTA is in bytes, 0 to 1099511627776, in digits alone; SLOTS is 0 to 64. Moments \
            are in milliseconds.\n\
            --blobs, --results, --result-bytes and --window hold for each instance, as for \
            serve.\n\n\
            Statuses:\n  \
            0  done\n  \
            1  FILE cannot be read, or standard output cannot be written\n  \
            3  `bad line N`: line N has no form; nothing was carried out\n  \
            5  out of memory: what was printed stands\n\n\
            Examples:\n  \
            remoted replay events.txt\n",
        ),
    ),
    (
        "remoted probe --help",
        Ends(
            0,
            "Send a file's bytes to a server, and print the first bytes that come back\n\n\
            Usage: remoted probe [OPTIONS] --port <P> --send <FILE> --want <N>\n\n\
            Options:\n      \
            --port <P>     The port to connect to\n      \
            --send <FILE>  The file whose bytes are sent\n      \
            --want <N>     How many bytes to wait for, as 15 or 64K\n      \
            --turns <T>    How many turns to take at most: in each it tries once to send and to \
            read [default: 1000000000]\n  \
            -h, --help         Print help\n\n\
            The server is one of this host, 127.0.0.1. The bytes are printed in hexadecimal, two \
            digits for each.\n\n\
            Statuses:\n  \
            0  all N bytes came\n  \
            1  FILE cannot be read, or there is no connection\n  \
            2  the command line is wrong\n  \
            4  `N bytes came`: fewer than were wanted, until the server closed or the turns were \
            over\n  \
            5  out of memory\n\n\
            Examples:\n  \
            remoted probe --port 8980 --send greeting.bin --want 15\n  \
            remoted probe --port 8980 --send request.bin --want 64K --turns 100000\n",
        ),
    ),
    (
        "remoted check --help",
        Ends(
            0,
            "Ask a server on a port what it can do: status 0 where it answers in time, else 4; or \
            tell a server's figures in words\n\n\
            Usage: remoted check [OPTIONS]\n\n\
            Options:\n      \
            --port <P>         The port of the server that is asked\n      \
            --host <ADDRESS>   The address of the server, IPv4 or IPv6 [default: 127.0.0.1]\n      \
            --instance <NAME>  The instance that is asked, or whose figures are told; that of \
            the port, or each, if none is named\n      \
            --seconds <N>      For how many seconds the answer is waited for, 1 to 3600 \
            [default: 5]\n      \
            --metrics <FILE>   The file of a server's figures that is told in words, in place of \
            asking the server\n  \
            -h, --help             Print help\n\n\
            With --port it connects and calls GetCapabilities, which changes nothing. With \
            --metrics it reads the file that the server writes (serve --metrics FILE), and asks \
            nobody.\n\n\
            Statuses:\n  \
            0  it answers, or its figures are told\n  \
            1  FILE cannot be read, or standard output cannot be written\n  \
            2  the command line is wrong\n  \
            4  it does not answer, not in time, or refuses; FILE has no such instance, or was written \
            more than 60 seconds ago; standard error says which\n  \
            5  out of memory\n\n\
            Examples:\n  \
            remoted check --port 8980\n  \
            remoted check --host 10.0.0.7 --port 8980 --instance red --seconds 2\n  \
            remoted check --metrics /run/figures --instance red\n",
        ),
    ),
    (
        "remoted serve --help",
        Ends(
            0,
            "Serve instances on ports of this host\n\n\
            Usage: remoted serve [OPTIONS] --work <DIR> <NAME:PORT:QUOTA:SLOTS[:PARENT]>...\n\n\
            Arguments:\n  \
            <NAME:PORT:QUOTA:SLOTS[:PARENT]>...  An instance: name, port, quota in bytes, most \
            actions at once, and perhaps its parent\n\n\
            Options:\n      \
            --work <DIR>          The folder for the work of actions; it is made if it is not \
            there\n      \
            --launcher <PROGRAM>  The program that starts the program of each action, as in a \
            sandbox or elsewhere\n      \
            --made-trees <SIZE>   How many bytes of large input directories each instance keeps \
            on the disk, as 20G, for actions that share them; with 0 none. The launcher binds them \
            [default: 0]\n      \
            --turns <T>           How many turns to take at most, or endless: a busy server \
            takes the 1000000000 in a day [default: 1000000000]\n      \
            --listen <ADDRESS>    The address to listen on, IPv4 or IPv6. Whoever can reach a \
            port there has all of its instance: may read every blob, store results and, with \
            slots, run programs [default: 127.0.0.1]\n      \
            --metrics <FILE>      The file to which the server's figures are written every 10 \
            seconds, for Prometheus\n      \
            --stop <FILE>         The file that ends the server once it is there; it must not be \
            there at the start\n      \
            --end <FILE>          The file whose lines end jobs, NAME, NAME HASH or NAME \
            abandoned; it is read and removed\n      \
            --links <HOW>         What becomes of symbolic links in output directories: \
            leave-out, or fail to have the action fail; leave-out if not given\n      \
            --blobs <N>           How many blobs each instance stores at most, 1 to 2147483648. \
            Each that is there takes some 570 bytes of memory beside its own [default: 65536]\n      \
            --results <N>         How many results of actions each instance keeps at most, 0 to \
            2147483648. Each that is there takes some 250 bytes of memory beside its own \
            [default: 10000]\n      \
            --result-bytes <N>    How many bytes the results of each instance have together at \
            most, 4M to 2G. They count in no quota [default: 67108864]\n      \
            --window <N>          How many bytes a client may send of a call, and on a \
            connection, before the server has read them, 65535 to 2147483647. An upload brings \
            so many in a round trip at most. It takes no memory by itself [default: 65535]\n  \
            -h, --help                Print help\n\n\
            An instance, NAME:PORT:QUOTA:SLOTS or NAME:PORT:QUOTA:SLOTS:PARENT:\n  \
            NAME    1 to 64 of a-z, 0-9 and -, each once\n  \
            PORT    1 to 65535, each once: what comes in there is this instance's alone\n  \
            QUOTA   the most bytes that it stores, 0 to 1099511627776, in digits alone:\n          \
            1073741824 is 1 GiB, 8589934592 are 8 GiB, 1099511627776 are 1 TiB\n  \
            SLOTS   the most actions that it runs at a time, 0 to 64; with 0 it is a cache \
            alone\n  \
            PARENT  the name of an instance whose blobs it reads, too\n\n\
            Numbers for all instances, where a build is larger than the usual ones:\n  \
            --blobs         some 570 bytes of memory for each blob that is there\n  \
            --results       some 250 bytes for each result that is there\n  \
            --result-bytes  as many bytes as results have; they count in no quota\n  \
            --window        nothing by itself: an upload has at most so many bytes on its way\n\
            None of them takes memory before something is there.\n\n\
            Statuses:\n  \
            0  it has served: for its turns, or until the file of --stop was there\n  \
            1  it cannot begin: a port is taken, or DIR, PROGRAM or a limit of the host is in \
            the way\n  \
            2  the command line is wrong, a word for an instance, too\n  \
            5  out of memory before the first turn\n\n\
            Examples:\n  \
            a cache of 8 GiB, until it is killed:\n    \
            remoted serve --work /var/lib/remoted --turns endless red:8980:8589934592:0\n  \
            with figures, and an end by a file (touch /run/end):\n    \
            remoted serve --work /var/lib/remoted --turns endless --metrics /run/figures --stop \
            /run/end \\\n      \
            red:8980:8589934592:0\n  \
            with a file that ends jobs (echo red >/run/x && mv /run/x /run/jobs):\n    \
            remoted serve --work /var/lib/remoted --turns endless --end /run/jobs \
            red:8980:8589934592:4\n  \
            a cache that CI fills, and a team's that reads it and runs up to 4 actions:\n    \
            remoted serve --work /var/lib/remoted --turns endless ci:8980:8589934592:0 \
            red:8981:2147483648:4:ci\n  \
            for builds of up to 30,000 actions, over a network:\n    \
            remoted serve --work /var/lib/remoted --turns endless --blobs 500000 --results \
            100000 \\\n      \
            --result-bytes 512M --window 16M red:8980:17179869184:0\n",
        ),
    ),
];

#[test]
fn help(rt: HostRuntime) {
    all_hold(&rt, &rt, &HELP);
}
