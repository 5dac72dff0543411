//! The texts that end the help of each command.

/// What stands below the options in the help of `plan`.
pub(crate) const AFTER_PLAN: &str =
    "In place of FILE, --settings and the options behind it name files that lie apart, as aliasplan gather takes them.\n\n\
      Exit status: 0 a plan without findings, 1 a plan with findings, 2 the job is refused,\n\
      3 out of memory, 4 the job can't be read or the plan can't be written, 5 a fault of the command line.\n\
      Where the status is 2 or more, one line on standard error says why; with -v, but not with --each, a second says where.\n\
      Where it is 1, -v says there which items of alias and include files are bad, and why.\n\n\
      Example: aliasplan plan examples/first.job";

/// What stands below the options in the help of `domains`.
pub(crate) const AFTER_DOMAINS: &str =
    "The names come in lower case, each once and on a line of its own, in the order of their bytes. They are\n\
      the domains, and the hosts that the transport table or mailbox_transport names without brackets, of\n\
      all recipients that the message reaches. The job's own section %mx makes no difference.\n\n\
      In place of FILE, --settings and the options behind it name files that lie apart, as aliasplan gather takes them.\n\n\
      Exit status: 0 the names are written, perhaps none, 2 the job is refused, 3 out of memory, 4 the job\n\
      can't be read or the names can't be written, 5 a fault of the command line.\n\n\
      Example: aliasplan domains examples/first.job";

/// What stands below the options in the help of `check`.
pub(crate) const AFTER_CHECK: &str =
    "The job needs no envelope, and one that is there isn't looked at. The text says how many findings and notes\n\
      follow, and ends with the line end. A note is no fault: it names a setting that Postfix reads otherwise.\n\n\
      In place of FILE, --settings and the options behind it name files that lie apart, as aliasplan gather takes them.\n\n\
      Exit status: 0 no findings, 1 findings, 2 the job is refused, 3 out of memory, 4 the job can't be read or\n\
      the text can't be written, 5 a fault of the command line.\n\n\
      Example: aliasplan check --all examples/first.job";

/// What stands below the options in the help of `explain`.
pub(crate) const AFTER_EXPLAIN: &str =
    "ADDRESS may stand in angle brackets. A name without a domain is one at the origin: an alias, a mailbox or a\n\
      missing name. An address is explained as the mailbox or the remote address that it is, where mail is\n\
      delivered there, else as what it stands for. Of several chains of items the shortest is told.\n\n\
      In place of FILE, --settings and the options behind it name files that lie apart, as aliasplan gather takes them.\n\n\
      Exit status: 0 a transaction of the plan has the address, 1 none has it, 2 the job is refused, 3 out of\n\
      memory, 4 the job can't be read or the text can't be written, 5 a fault of the command line.\n\n\
      Example: aliasplan explain joe@example.org examples/first.job";

/// What stands below the options in the help of `expand`.
pub(crate) const AFTER_EXPAND: &str =
    "Of two or more operands the last one is FILE, unless files that lie apart are named. An ADDRESS may stand in angle brackets; a name\n\
      without a domain is one at the origin. The answer has the mailboxes and remote addresses that a message of\n\
      the null sender to all of them reaches, whether they have a route or not, a line each, in the order of their\n\
      bytes; with --tree or --form dot it has how the message comes to them, and to what can't be delivered. The job\n\
      needs no envelope, and one that is there isn't looked at.\n\n\
      In place of FILE, --settings and the options behind it name files that lie apart, as aliasplan gather takes them.\n\n\
      Exit status: 0 an address is written, or a tree or a graph, 1 there is no address to write, 2 the job is\n\
      refused, 3 out of memory, 4 the job can't be read or the answer can't be written, 5 a fault of the command line.\n\n\
      Example: aliasplan expand staff@example.org examples/first.job";

/// What stands below the options in the help of `gather`.
pub(crate) const AFTER_GATHER: &str =
    "A section whose file isn't named isn't in the job. --aliases and --transport may stand several times:\n\
      the files are joined in that order, and the first entry of a name or a pattern holds. The include\n\
      files that the alias files name are read too, from the paths that stand there.\n\n\
      Exit status: 0 the job is written, 2 it would be refused, 3 out of memory, 4 a file can't be read or\n\
      the job can't be written, 5 a fault of the command line.\n\n\
      Example: aliasplan gather --aliases /etc/aliases --envelope message.envelope | aliasplan plan";
