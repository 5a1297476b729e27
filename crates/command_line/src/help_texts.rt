//! What `--help` says of the program and of its commands.

pub(crate) const ABOUT: &str =
    "A remote build cache for Bazel. Without a command it carries out the script on standard input";

pub(crate) const AFTER: &str =
    "A number of bytes, blobs or results in an option may have a unit: K, M, G or T, powers of 1,024.\n\
    8G is 8589934592, 500M is 524288000. In a word for an instance it is digits alone.\n\n\
    Statuses:\n  \
    0  done\n  \
    1  something cannot be read, written, made, opened or begun\n  \
    2  the command line is wrong\n  \
    3  unary, replay: a line of the script is wrong, and nothing was carried out\n  \
    4  probe: too few bytes came; check: the server does not answer, or its figures are old\n  \
    5  out of memory\n\
    Standard error says why, in lines that begin with `remoted: ` or `error: `.\n\n\
    Examples:\n  \
    remoted serve --work /var/lib/remoted --turns endless red:8980:8589934592:0\n  \
    remoted check --port 8980\n  \
    remoted serve --help";

pub(crate) const UNARY_ABOUT: &str =
    "Carry out a script of calls on instances of its own, without connections";

pub(crate) const UNARY_LINES: &str =
    "The script: lines `instance NAME QUOTA`, `put NAME HEX` and `call NAME METHOD HEX`";

pub(crate) const UNARY_AFTER: &str =
    "QUOTA is in bytes, 0 to 1099511627776, in digits alone. HEX is bytes, two digits for each.\n\
    --blobs holds for each instance; the other three numbers have no effect on these calls.\n\n\
    Statuses:\n  \
    0  done\n  \
    1  FILE cannot be read, or standard output cannot be written\n  \
    3  `bad line N`: line N has no form; nothing was carried out\n  \
    5  out of memory: what was printed stands\n\n\
    Examples:\n  \
    remoted unary calls.txt\n  \
    printf 'instance a 100\\nput a 616263\\n' | remoted";

pub(crate) const REPLAY_ABOUT: &str =
    "Carry out a script of events on a server of its own, and print what it sends";

pub(crate) const REPLAY_LINES: &str =
    "The script: lines `instance NAME QUOTA SLOTS [PARENT]`, and then one line for each event";

pub(crate) const REPLAY_AFTER: &str =
    "QUOTA is in bytes, 0 to 1099511627776, in digits alone; SLOTS is 0 to 64. \
    Moments are in milliseconds.\n\
    --blobs, --results, --result-bytes and --window hold for each instance, as for serve.\n\n\
    Statuses:\n  \
    0  done\n  \
    1  FILE cannot be read, or standard output cannot be written\n  \
    3  `bad line N`: line N has no form; nothing was carried out\n  \
    5  out of memory: what was printed stands\n\n\
    Examples:\n  \
    remoted replay events.txt";

pub(crate) const PROBE_ABOUT: &str =
    "Send a file's bytes to a server, and print the first bytes that come back";

pub(crate) const PROBE_AFTER: &str = "The server is one of this host, 127.0.0.1. \
    The bytes are printed in hexadecimal, two digits for each.\n\n\
    Statuses:\n  \
    0  all N bytes came\n  \
    1  FILE cannot be read, or there is no connection\n  \
    2  the command line is wrong\n  \
    4  `N bytes came`: fewer than were wanted, until the server closed or the turns were over\n  \
    5  out of memory\n\n\
    Examples:\n  \
    remoted probe --port 8980 --send greeting.bin --want 15\n  \
    remoted probe --port 8980 --send request.bin --want 64K --turns 100000";

pub(crate) const CHECK_ABOUT: &str =
    "Ask a server on a port what it can do: status 0 where it answers in time, else 4; or tell a \
    server's figures in words";

pub(crate) const CHECK_AFTER: &str =
    "With --port it connects and calls GetCapabilities, which changes nothing. With --metrics it reads \
    the file that the server writes (serve --metrics FILE), and asks nobody.\n\n\
    Statuses:\n  \
    0  it answers, or its figures are told\n  \
    1  FILE cannot be read, or standard output cannot be written\n  \
    2  the command line is wrong\n  \
    4  it does not answer, not in time, or refuses; FILE has no such instance, or was written more \
    than 60 seconds ago; standard error says which\n  \
    5  out of memory\n\n\
    Examples:\n  \
    remoted check --port 8980\n  \
    remoted check --host 10.0.0.7 --port 8980 --instance red --seconds 2\n  \
    remoted check --metrics /run/figures --instance red";

pub(crate) const SERVE_ABOUT: &str = "Serve instances on ports of this host";

pub(crate) const SERVE_AFTER: &str =
    "An instance, NAME:PORT:QUOTA:SLOTS or NAME:PORT:QUOTA:SLOTS:PARENT:\n  \
    NAME    1 to 64 of a-z, 0-9 and -, each once\n  \
    PORT    1 to 65535, each once: what comes in there is this instance's alone\n  \
    QUOTA   the most bytes that it stores, 0 to 1099511627776, in digits alone:\n          \
    1073741824 is 1 GiB, 8589934592 are 8 GiB, 1099511627776 are 1 TiB\n  \
    SLOTS   the most actions that it runs at a time, 0 to 64; with 0 it is a cache alone\n  \
    PARENT  the name of an instance whose blobs it reads, too\n\n\
    Numbers for all instances, where a build is larger than the usual ones:\n  \
    --blobs         some 570 bytes of memory for each blob that is there\n  \
    --results       some 250 bytes for each result that is there\n  \
    --result-bytes  as many bytes as results have; they count in no quota\n  \
    --window        nothing by itself: an upload has at most so many bytes on its way\n\
    None of them takes memory before something is there.\n\n\
    Statuses:\n  \
    0  it has served: for its turns, or until the file of --stop was there\n  \
    1  it cannot begin: a port is taken, or DIR, PROGRAM or a limit of the host is in the way\n  \
    2  the command line is wrong, a word for an instance, too\n  \
    5  out of memory before the first turn\n\n\
    Examples:\n  \
    a cache of 8 GiB, until it is killed:\n    \
    remoted serve --work /var/lib/remoted --turns endless red:8980:8589934592:0\n  \
    with figures, and an end by a file (touch /run/end):\n    \
    remoted serve --work /var/lib/remoted --turns endless --metrics /run/figures \
    --stop /run/end \\\n      \
    red:8980:8589934592:0\n  \
    with a file that ends jobs (echo red >/run/x && mv /run/x /run/jobs):\n    \
    remoted serve --work /var/lib/remoted --turns endless --end /run/jobs \
    red:8980:8589934592:4\n  \
    a cache that CI fills, and a team's that reads it and runs up to 4 actions:\n    \
    remoted serve --work /var/lib/remoted --turns endless ci:8980:8589934592:0 \
    red:8981:2147483648:4:ci\n  \
    for builds of up to 30,000 actions, over a network:\n    \
    remoted serve --work /var/lib/remoted --turns endless --blobs 500000 --results 100000 \\\n      \
    --result-bytes 512M --window 16M red:8980:17179869184:0";
