//! The texts of the pages. A page on a command has its words, what it does, its statuses and an
//! example, in ten lines at most. docs/check.py compares them with `anb help` and the other pages.

/// What the commands are for, in groups.
pub const OVERVIEW: &str = concat!(
    "anb compiles Alice-and-Bob narrations, and plays one role of them against real programs.\n",
    "\n",
    "look at a narration\n",
    "  check     says why it is refused, or what each role opens, checks and takes\n",
    "  chart     draws it, in Mermaid's language\n",
    "  explain   writes what a role does, and its code\n",
    "  fmt       writes the canonical text\n",
    "  why       lists what the sender of a message has, where it can't send it\n",
    "play\n",
    "  play      plays one role, over standard streams or TCP\n",
    "  probe     tests an implementation of a role: does it make each check that it must?\n",
    "  values    writes values files: the bytes of what the roles know\n",
    "  branch    plays a role of a text with a choice\n",
    "  park      plays a role, and writes a record where it waits\n",
    "  resume    goes on from such a record\n",
    "  host      serves many sessions of a role on one wire\n",
    "records of conversations\n",
    "  replay    compares a transcript with what the role does\n",
    "  judge     says whether a transcript is the role's for some draws\n",
    "  trace     tells step by step what a role does over a transcript\n",
    "whole protocols\n",
    "  stage     runs each role as a child program, and carries the messages\n",
    "  rehearse  plays all roles in one program, by a schedule\n",
    "  drill     writes how large a rehearsal is\n",
    "codes\n",
    "  compile   writes a role's code as a role file\n",
    "  enact     runs the code of a role file\n",
    "  certify   says whether the code of a role file is certified for a role\n",
    "\n",
    "`anb help` lists their words, and `anb help <command>` tells more of one. Read on in `man anb`,\n",
    "README.md (the first steps), docs/TUTORIAL.md, and docs/REFERENCE.md (all statuses and files).\n",
);

/// The version, with which CHANGELOG.md begins.
pub const VERSION: &str = "anb 1.0.0\n";

/// The page on `check`.
pub const CHECK: &str = concat!(
    "anb check <narration> [<role> <values>]\n",
    "Says where and why the narration is refused, and what would mend it; or what each role\n",
    "opens, checks and learns, and which messages it takes. With a role and a values file: what is\n",
    "wrong in that file, with the status that `play` has; nothing where it has all values.\n",
    "Statuses: 0; 4 it is refused; 5 no such role; 6 a role can't send; 7 the values; 2, 3 a file;\n",
    "9, 15 the output; 99.\n",
    "Example: anb check examples/mutual/mutual.anb\n",
);

/// The page on `chart`.
pub const CHART: &str = concat!(
    "anb chart <narration> [--role <name>]\n",
    "Writes a sequence diagram in Mermaid's language; with a role's name, what that role opens,\n",
    "checks, learns and accepts too.\n",
    "Statuses: 0; 4 the narration is refused; with a role, 5 there is none, 6 one can't send;\n",
    "2, 3 the file; 9, 15 the output; 99.\n",
    "Example: anb chart examples/mutual/mutual.anb --role B\n",
);

/// The page on `explain`.
pub const EXPLAIN: &str = concat!(
    "anb explain <narration> <role>\n",
    "Writes what the role knows, draws, sends and receives, and its code with the term of each\n",
    "register.\n",
    "Statuses: 0; 4 the narration is refused; 5 no such role; 6 a role can't send; 2, 3 the file;\n",
    "9, 15 the output; 99.\n",
    "Example: anb explain examples/mutual/mutual.anb B\n",
);

/// The page on `fmt`.
pub const FMT: &str = concat!(
    "anb fmt <narration>\n",
    "Writes the canonical text. It looks at the grammar alone, and drops comments and goals.\n",
    "Statuses: 0; 4 the text is no narration; 2, 3 the file; 9, 15 the output; 99.\n",
    "Example: anb fmt examples/mutual/mutual.anb\n",
);

/// The page on `why`.
pub const WHY: &str = concat!(
    "anb why <narration>\n",
    "Says which message can't be composed, and lists what its sender has by then; or that all\n",
    "can be sent.\n",
    "Statuses: 0 in both cases; 4 the narration is refused; 2, 3 the file; 9, 15 the output; 99.\n",
    "Example: anb why examples/mutual/mutual.anb\n",
);

/// The page on `play`.
pub const PLAY: &str = concat!(
    "anb play <narration> <role> <values> [place] [--record <folder>]\n",
    "Plays the role: sends its messages, each in a frame after its length in four bytes, and\n",
    "stops at the first arrival that an honest partner wouldn't have sent. The place is --dial\n",
    "or --listen with <host>:<port>, after which --timeout <seconds> may stand; without a place\n",
    "the role speaks over standard streams. The folder gets the values and the transcript.\n",
    "Statuses: 0; 4 the narration is refused; 5 no such role; 6 a role can't send; 7 the values;\n",
    "8 no seed; 10 it stopped; 11 it waits; 12, 13 a frame is cut or too long; 2, 3 a file;\n",
    "9, 14, 15 the place; 38 the folder; 99.\n",
    "Example: anb play examples/ping/ping.anb A examples/ping/A.values --dial 127.0.0.1:4070\n",
);

/// The page on `probe`.
pub const PROBE: &str = concat!(
    "anb probe <narration> <role> <values> [--all] [--case <n>] [--timeout <seconds>] [--record <folder>] --dial <where> or -- <program> <word>..\n",
    "Tests an implementation of the role: starts the program once a case and plays all other\n",
    "roles against it, over its standard streams, each time with one thing that the role must\n",
    "refuse or take. Writes TAP, and which checks are missing. The values are as for rehearse.\n",
    "With --dial <host>:<port> a peer that listens there is dialled once a case. The folder\n",
    "gets the role's values, and each case's transcript and standard error.\n",
    "Statuses: 0; 36 cases aren't ok; 31 the program can't be started, or dialled; 4 the\n",
    "narration is refused; 5 no such role; 6 a role can't send; 7 the values; 8 no seed; 2, 3\n",
    "a file; 9, 15 the output; 38 the folder; 99.\n",
    "Example: anb probe examples/mutual/mutual.anb B examples/mutual/all.values -- python3 examples/peer/responder.py -\n",
);

/// The page on `values`.
pub const VALUES: &str = concat!(
    "anb values <narration> [<role> <values>]\n",
    "Writes a values file for all roles: an agent's value is its name, all others are drawn, and\n",
    "so is the seed. With a role and such a file, writes the role's own values file.\n",
    "Statuses: 0; 4 the narration is refused; 8 no seed; with a role, 5 there is none, 7 the\n",
    "values; 2, 3 a file; 9, 15 the output; 99.\n",
    "Example: anb values examples/mutual/mutual.anb B examples/mutual/all.values\n",
);

/// The page on `branch`.
pub const BRANCH: &str = concat!(
    "anb branch <narration> <role> <values> [--arm <n>] [place] [--record <folder>]\n",
    "Plays the role of a text with a choice at its end. The role that chooses is told the arm,\n",
    "from 1 to 8; another role hears it from its first message after the choice. For places and\n",
    "the folder see play.\n",
    "Statuses: 0; 25 the text is refused; 5 no such role; 26 a role can't send in an arm; 27 the\n",
    "arm doesn't fit; 7 the values; 8 no seed; 10 it stopped; 11 it waits; 12, 13 a frame is cut\n",
    "or too long; 2, 3 a file; 9, 14, 15 the place; 38 the folder; 99.\n",
    "Example: anb branch examples/offer/choice.anb B examples/offer/B.values --arm 1\n",
);

/// The page on `park`.
pub const PARK: &str = concat!(
    "anb park <narration> <role> <values> <key> [place] [--record <file>]\n",
    "Plays the role. Where it waits at the end of the input, writes a record of the session,\n",
    "sealed under the key: in a frame of its own, or into the file. The key's file isn't empty\n",
    "and is taken whole. For places see play.\n",
    "Statuses: 0; 29 it waits, and the record is written; 30 the key is empty; 4 to 8 as play\n",
    "has them; 10 it stopped; 12, 13 a frame is cut or too long; 2, 3 a file; 9, 14, 15 the\n",
    "place; 38 the record's file; 99.\n",
    "Example: anb park examples/ping/ping.anb A examples/ping/A.values my.key\n",
);

/// The page on `resume`.
pub const RESUME: &str = concat!(
    "anb resume <narration> <role> <record> <key> [place] [--record <file>]\n",
    "Goes on from a record that park or resume wrote, and writes the next one, in a frame or\n",
    "into the file, where the role waits again. Delete the old record once the new one, or\n",
    "status 0, is safe. For places see play.\n",
    "Statuses: 0; 29 it waits, and the record is written; 30 the record is refused; 4 to 6 as\n",
    "play has them; 10 it stopped; 12, 13 a frame is cut or too long; 2, 3 a file; 9, 14, 15 the\n",
    "place; 38 the record's file; 99.\n",
    "Example: anb resume examples/ping/ping.anb A a.record my.key\n",
);

/// The page on `host`.
pub const HOST: &str = concat!(
    "anb host <narration> <role> <values> [place] [--record <folder>]\n",
    "Serves up to 1,024 sessions of the role on one wire, in frames that name the session: a\n",
    "frame starts a session or brings its arrival, and a notice tells what comes of it. For\n",
    "places see play. The folder gets the values and a transcript of each session.\n",
    "Statuses: 0; 4 to 8 as play has them; 12 a frame is cut; 20 a frame has no kind; 21 too many\n",
    "frames; 2, 3 a file; 9, 14, 15 the place; 38 the folder; 99.\n",
    "Example: python3 examples/host/two.py | anb host examples/ping/ping.anb B examples/ping/B.values\n",
);

/// The page on `replay`.
pub const REPLAY: &str = concat!(
    "anb replay <narration> <role> <values> <transcript> [--session <n>]\n",
    "Compares a transcript with what the role does. Its lines are `> <hex>` for what the role\n",
    "sends and `< <hex>` for what arrives. The session of a host has draws of its own: its\n",
    "number is from 0 to 4294967295, and 0 where none is said.\n",
    "Statuses: 0; 4 to 8 as play has them; 10 the role stops; 17 a line can't be read; 18 a line\n",
    "differs; 19 the transcript ends too early; 2, 3 a file; 9 the output; 99.\n",
    "Example: anb replay examples/ping/ping.anb A examples/ping/A.values examples/ping/A.transcript\n",
);

/// The page on `judge`.
pub const JUDGE: &str = concat!(
    "anb judge <narration> <role> <values> <transcript>\n",
    "Says whether a transcript is the role's for some draws, and so judges an implementation that\n",
    "draws by itself. The values are those of all names that some role knows, as for rehearse.\n",
    "Statuses: 0; 4 to 7 as play has them; 10 the role stops; 17 a line can't be read; 18 a line\n",
    "differs; 19 the transcript ends too early; 2, 3 a file; 9 the output; 99.\n",
    "Example: anb judge examples/ping/ping.anb A examples/ping/all.values examples/ping/A.transcript\n",
);

/// The page on `trace`.
pub const TRACE: &str = concat!(
    "anb trace <narration> <role> <values> <transcript> [--session <n>]\n",
    "Plays the role over the arrivals of a transcript, and tells step by step what happens, up\n",
    "to the reason of a stop; then the first line that isn't due. For sessions see replay.\n",
    "Statuses: 0; 4 to 8, 10 and 17 to 19 as replay has them; 2, 3 a file; 9, 15 the output; 99.\n",
    "Example: anb trace examples/ping/ping.anb A examples/ping/A.values examples/ping/A.transcript\n",
);

/// The page on `stage`.
pub const STAGE: &str = concat!(
    "anb stage <narration> <folder or values> [--as <role> <program>].. [--timeout <seconds>] [--record <folder>]\n",
    "Starts a child for each role with the folder's file <role>.values, or with what anb values\n",
    "writes for the role from a file <name>.values, carries each message from its sender to its\n",
    "receiver, and writes a line for each. The children are anb play, or the program that --as\n",
    "says for the role, split at spaces, or that ANB_CHILD names for all. With a limit no child\n",
    "may be silent for longer. The folder gets each role's transcript and errors, and the lines.\n",
    "Statuses: 0; 4 the narration is refused; 5 no such role; 6 a role can't send; 7 the values;\n",
    "31 a child failed; 32, 33, 34 its message is missing, cut or too long; 35 it ended badly;\n",
    "37 it was silent; 38 a file can't be written; 2, 3 a file; 9, 15 the output; 99.\n",
    "Example: anb stage examples/nssk/nssk.anb examples/nssk --as B ./peer\n",
);

/// The page on `rehearse`.
pub const REHEARSE: &str = concat!(
    "anb rehearse <narration> <values> <schedule>\n",
    "Plays all roles in one program, and writes the messages. The schedule is a list of roles,\n",
    "each of which takes a turn; the values are those of all names that some role knows.\n",
    "Statuses: 0; 24 not all roles are done; 22 a message is too long; 23 a word of the schedule\n",
    "names no role; 4 the narration is refused; 6 a role can't send; 7 the values; 8 no seed;\n",
    "2, 3 a file; 9, 15 the output; 99.\n",
    "Example: anb rehearse examples/ping/ping.anb examples/ping/all.values examples/ping/schedule\n",
);

/// The page on `drill`.
pub const DRILL: &str = concat!(
    "anb drill <n>\n",
    "Writes how many actions, turns and bytes a rehearsal of a generated narration of n exchanges\n",
    "has, from 1 to 200.\n",
    "Statuses: 0; 9, 15 the output; 99.\n",
    "Example: anb drill 3\n",
);

/// The page on `compile`.
pub const COMPILE: &str = concat!(
    "anb compile <narration> <role>\n",
    "Writes the role's code as a role file.\n",
    "Statuses: 0; 4 the narration is refused; 5 no such role; 6 a role can't send; 2, 3 the file;\n",
    "9, 15 the output; 99.\n",
    "Example: anb compile examples/mutual/mutual.anb B\n",
);

/// The page on `enact`.
pub const ENACT: &str = concat!(
    "anb enact <rolefile> <values> [place] [--record <folder>]\n",
    "Runs exactly the code of a role file, and names the instruction where it stops. The values\n",
    "are those of the code's takes. For places and the folder see play.\n",
    "Statuses: 0; 16 the role file; 7 the values; 8 no seed; 10 it stopped; 11 it waits; 12, 13 a\n",
    "frame is cut or too long; 2, 3 a file; 9, 14, 15 the place; 38 the folder; 99.\n",
    "Example: anb enact b.role examples/mutual/B.values --listen 127.0.0.1:4070\n",
);

/// The page on `certify`.
pub const CERTIFY: &str = concat!(
    "anb certify <narration> <role> <rolefile>\n",
    "Says that the code of a role file is certified for the role, so that it sends and checks\n",
    "what the role must; or at which instruction it isn't.\n",
    "Statuses: 0; 28 it isn't certified; 16 the role file; 4 the narration is refused; 5 no such\n",
    "role; 2, 3 a file; 9, 15 the output; 99.\n",
    "Example: anb certify examples/mutual/mutual.anb B b.role\n",
);

/// The page on `help`.
pub const HELP: &str = concat!(
    "anb help\n",
    "Lists the words of each command; `anb help <command>` tells more of one. `anb --help` says\n",
    "what the commands are for, and `anb --version` which version this is.\n",
    "Statuses: 0; 9, 15 the output. Every command: 1 the words fit none, 99 out of memory.\n",
    "Example: anb help check\n",
);
