//! The texts that the help adds to what clap makes of the program's arguments.

/// The version, which `dmf --version` writes after the program's name.
pub const VERSION: &str = "0.2.0";

/// The option `--any`.
pub const ANY: &str = "Write any flow of the greatest value, found sooner";

/// The option `--brief` of a solve.
pub const VALUE: &str = "Write the value in place of the solution";

/// The option `--brief` of a session.
pub const BRIEF: &str = "Answer a solve by its value in place of the solution";

/// The option `--cut` of a solve.
pub const CUT: &str = "Write the smallest minimum cut after the solution";

/// The option `--cut` of a session.
pub const CUTS: &str = "Write the smallest minimum cut after each solution";

/// The option `--history`.
pub const HISTORY: &str = "Keep at most N changes for undo";

/// The option `--nodes`.
pub const NODES: &str = "Leave out each node in turn, rather than each arc";

/// The option `--pairs`.
pub const PAIRS: &str = "Leave out pairs of arcs; needs --worst";

/// The option `--progress`.
pub const PROGRESS: &str = "Tell on standard error how far it is";

/// The option `--second`.
pub const SECOND: &str = "Also print the greatest value with a second arc beside each";

/// The option `--worst`.
pub const WORST: &str = "Write the N whose loss costs most, the worst first";

/// The path after `dmf session` and `dmf check`.
pub const PROBLEM: &str = "The file with the problem";

/// The texts of a command's help that are its own.
#[derive(Clone, Copy)]
pub struct Help {
    /// What the command is for.
    pub about: &'static str,
    /// How it is used.
    pub usage: &'static str,
    /// The end of the help.
    pub notes: &'static str,
}

/// The help of `dmf`.
pub const PROGRAM: Help = Help {
    about: "Find how much a network can carry and where its limit is, and try out changes",
    usage: "dmf [solve [--any] [--brief] [--cut] [--progress]] <FILE
       dmf session [--brief] [--cut] [--history N] [--progress] PROBLEM
       dmf check PROBLEM <SOLUTION
       dmf vital [--nodes | --pairs | --second] [--progress] [--worst N] <FILE",
    notes: "How much can the network carry, and where is its limit?
  $ dmf solve --cut <network.max | grep -v '^f'
  s 5
  c cut 5
  c side 1

What would it carry if the fifth arc had the capacity 1?
  $ printf 'cap 5 1\\nsolve\\n' | dmf session --brief network.max
  c cap value 0
  c solve value 3

Is a solution right, and is its flow the greatest?
  $ dmf solve <network.max | dmf check network.max
  c greatest 5

What would it carry without each of its arcs?
  $ dmf vital <network.max
  c value 5
  v 1 2
  v 2 3
  v 3 4
  v 4 3
  v 5 2

Exit status:
  0  success
  1  a command was refused, or the checked flow is not the greatest
  2  invalid arguments
  3  the problem or the solution has a fault
  4  a read or a write failed, PROBLEM cannot be opened, or a limit of size
     was passed
  5  a request for memory was refused

Tools around it: dmf-plan dmf-board dmf-problem dmf-names dmf-dot dmf-sweep

FILE and PROBLEM are texts in the DIMACS format for maximum flow. The --help of
each command and tool says more. man dmf has the formats.",
};

/// The help of `dmf solve`.
pub const SOLVE: Help = Help {
    about: "Find how much can be sent, and on which arcs (as dmf alone does)",
    usage: "dmf solve [--any] [--brief] [--cut] [--progress] <FILE",
    notes: "Example:
  $ dmf solve --cut <network.max
  s 5
  f 1 2 3
  f 1 3 2
  f 2 3 1
  f 2 4 2
  f 3 4 3
  c cut 5
  c side 1

The line s has how much can be sent in all, the value of the flow. The lines f
follow the arcs of the problem in their order: from node, to node, and the flow
on the arc. With --cut, c cut has how much the arcs at the limit can carry, and
each c side names a node on the source's side of that limit.

With --brief the line c solve value VALUE stands for the solution. With --any
the flow may be another of the same value, and another version of dmf may write
another. Where many flows are greatest, both find theirs sooner.

man dmf has the formats.",
};

/// The help of `dmf session`. `tests/commands.py` has the commands: /usr/bin/python3 -m pytest --write tests/test_commands.py makes its list.
pub const SESSION: Help = Help {
    about: "Try out changes of arcs and nodes, one command a line, and take them back",
    usage: "dmf session [--brief] [--cut] [--history N] [--progress] PROBLEM",
    notes: "Commands, one a line on standard input, each with its reply:
  cap ARC CAP      the arc can carry CAP               c cap value VALUE
  add FROM TO CAP  a new arc leads from node to node   c add ARC value VALUE
  close ARC        the arc can carry nothing           c close value VALUE
  shut NODE        every arc at the node is closed     c shut value VALUE
  solve            as much as possible is sent         s VALUE, then f lines
  undo [K]         the last change, or K, taken back   c undo value VALUE
  redo [K]         one change, or K, made again        c redo value VALUE
  print problem    the network as it is now            p, n and a lines
  print flow       how much each arc carries now       s VALUE, then f lines
  print cut        where the limit is                  c cut, then c side lines

VALUE is how much is sent after the command. A refused command changes nothing;
its reply is c refused LINE REASON. With --brief the reply to solve is
c solve value VALUE.

Arcs are numbered from 1 in the order of PROBLEM. Added ones follow, and closed
ones keep their numbers.

The session ends with its input, at a terminal by Ctrl-D.

Example:
  $ printf 'cap 5 1\\nsolve\\n' | dmf session network.max
  c cap value 0
  s 3
  f 1 2 2
  f 1 3 1
  f 2 3 0
  f 2 4 2
  f 3 4 1

man dmf has the formats.",
};

/// The help of `dmf check`.
pub const CHECK: Help = Help {
    about: "Judge whether a solution is right, and its flow the greatest",
    usage: "dmf check PROBLEM <SOLUTION",
    notes: "Example:
  $ dmf solve <network.max | dmf check network.max
  c greatest 5

The solution may come from any program. The reply is c greatest VALUE where no
flow of the problem has a larger value. Else it is c flow VALUE, with exit
status 1. man dmf has the formats.",
};

/// The help of `dmf vital`.
pub const VITAL: Help = Help {
    about: "Find how much can be sent without each arc, node or pair of arcs",
    usage: "dmf vital [--nodes | --pairs | --second] [--progress] [--worst N] <FILE",
    notes: "Example:
  $ dmf vital <network.max
  c value 5
  v 1 2
  v 2 3
  v 3 4
  v 4 3
  v 5 2

The line c value has how much can be sent in all. Each line v has the number of
an arc and how much can be sent if that arc alone is closed. Arcs are numbered
from 1 in the order of the problem. An arc that costs nothing to lose has its
line too.

With --nodes each line v has the number of a node, neither the source nor the
sink, and how much can be sent if all arcs at that node are closed:
  $ dmf vital --nodes <network.max
  c value 5
  v 2 2
  v 3 2

With --worst N only the N that cost most to lose have a line, the worst first:
  $ dmf vital --worst 2 <network.max
  c value 5
  v 1 2
  v 5 2

With --pairs and --worst N each line v has the numbers of two arcs, and how much
can be sent if both are closed:
  $ dmf vital --pairs --worst 2 <network.max
  c value 5
  v 1 2 0
  v 1 5 0

With --second each line v ends with how much can be sent if a second arc like it
stands beside the arc:
  $ dmf vital --second <network.max
  c value 5
  v 1 2 5
  v 2 3 5
  v 3 4 5
  v 4 3 5
  v 5 2 5

man dmf has the formats.",
};
