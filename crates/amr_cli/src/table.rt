//! The command set, as a table.
ghost use Rattle.std.specs.Prelude.{◌≡◌, map};
ghost use Rattle.amr_cli.specs.Table.{commands};
ghost use Rattle.amr_cli.specs.Rows.{command_row};

/// A number that a command takes, from `low` to `high`, with its name.
pub(crate) struct NumberForm {
    pub name: &'static str,
    pub low: u64,
    pub high: u64,
}

/// A command with its numbers: those that have to stand in their places, in order, and those that may be given by name, as
/// `--NAME N` or `--NAME=N`.
pub(crate) struct CommandForm {
    pub name: &'static str,
    pub places: &'static [NumberForm],
    pub options: &'static [NumberForm],
}

/// How many workers share a step, or the jobs of a batch.
pub(crate) const WORKERS: NumberForm = NumberForm {
    name: "workers",
    low: 1,
    high: 64,
};

/// The step that a run stops at.
pub(crate) const TO: NumberForm = NumberForm {
    name: "to",
    low: 0,
    high: 4096,
};

/// How many steps lie between two checkpoints.
pub(crate) const KEEP: NumberForm = NumberForm {
    name: "keep",
    low: 1,
    high: 4096,
};

/// How many records follow each whole state in a store that is created.
pub(crate) const DELTAS: NumberForm = NumberForm {
    name: "deltas",
    low: 1,
    high: 7,
};

/// Where a trial's draws begin.
pub(crate) const NUMBER: NumberForm = NumberForm {
    name: "number",
    low: 0,
    high: 4294967295,
};

/// A trial's cells along each axis.
pub(crate) const SIZE: NumberForm = NumberForm {
    name: "size",
    low: 8,
    high: 256,
};

/// The level that a view is of.
pub(crate) const LEVEL: NumberForm = NumberForm {
    name: "level",
    low: 0,
    high: 4,
};

/// The first column of a view.
pub(crate) const X0: NumberForm = NumberForm {
    name: "x0",
    low: 0,
    high: 4095,
};

/// The first row of a view.
pub(crate) const Y0: NumberForm = NumberForm {
    name: "y0",
    low: 0,
    high: 4095,
};

/// The last column of a view.
pub(crate) const X1: NumberForm = NumberForm {
    name: "x1",
    low: 0,
    high: 4095,
};

/// The last row of a view.
pub(crate) const Y1: NumberForm = NumberForm {
    name: "y1",
    low: 0,
    high: 4095,
};

/// The species that is seen.
pub(crate) const SPECIES: NumberForm = NumberForm {
    name: "species",
    low: 0,
    high: 3,
};

const COMMANDS: [CommandForm; 6] = [
    CommandForm {
        name: "run",
        places: &[],
        options: &[WORKERS, TO, KEEP, DELTAS],
    },
    CommandForm {
        name: "check",
        places: &[],
        options: &[],
    },
    CommandForm {
        name: "show",
        places: &[],
        options: &[],
    },
    CommandForm {
        name: "trial",
        places: &[NUMBER, SIZE],
        options: &[WORKERS],
    },
    CommandForm {
        name: "batch",
        places: &[],
        options: &[WORKERS],
    },
    CommandForm {
        name: "view",
        places: &[LEVEL, X0, Y0, X1, Y1],
        options: &[SPECIES, WORKERS],
    },
];

/// The commands.
pub(crate) fn command_forms() -> &'static [CommandForm]
    ensures { map command_row result.now ≡ commands }
{
    &COMMANDS
}
