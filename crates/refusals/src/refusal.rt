// Every refusal of the program.

use blif_read::{Name, Names, Text, What};

/// Why the input is refused. A number is that of a line, from 1.
#[derive(Drop)]
pub enum Refusal {
    /// The file of that name is longer than files of its kind may be.
    FileTooLong(Text),
    /// The first word begins with `.` and is none of the eight words of the language.
    UnknownStatement(u32, Text),
    /// The line is no row of the cover that directly precedes it, or no cover does.
    BadRow(u32),
    /// The row's last character differs from that of the cover's first row.
    MixedCover(u32),
    /// A `.latch` of another form.
    BadLatch(u32),
    /// No `.model` is before the line. The line is 0 where the text has no line with words.
    NoModel(u32),
    /// A name is longer than 255 bytes.
    LongName(u32),
    /// The line brings this count past its number.
    TooMany(u32, What),
    /// An earlier model has this name.
    TwiceModel(u32, Name),
    /// A port word of `.subckt` has no `=`, or an empty part.
    BadSubckt(u32),
    /// The line follows `.end` and isn't `.model`.
    AfterEnd(u32),
    /// `.model` without exactly one name, `.names` or `.subckt` without a word, or `.end` with a word.
    WordCount(u32),
    /// The settings are no TOML document.
    NotToml,
    /// The settings lack this key.
    Missing(Text),
    /// The value of this key isn't of the form that the key asks for.
    BadValue(Text),
    /// The settings have this other key.
    UnknownKey(Text),
    /// The distance of the code is below the one that the mode needs with the bound.
    TooSmall { d: u8, need: u8 },
    /// `check` is an array of texts, and no check matrix.
    BadShape,
    /// The net has a second driver, or stands twice in `.inputs`, in `.outputs` or in `.clock`.
    Twice(Name),
    /// A `.subckt` names neither a model nor a library entry.
    NoSuchModel(Name),
    /// A formal is no port of the model, or is given twice, or an input port isn't given: the model and the port.
    BadPort(Name, Name),
    /// The model contains itself.
    Recursion(Name),
    /// A used model other than the main one has a latch: the model.
    LatchInside(Name),
    /// A chain of more than 16 `.subckt` leads to the model.
    Depth(Name),
    /// The net is read and has no driver.
    Undriven(Name),
    /// The output of a latch that is clocked otherwise than the first latch or by a control that isn't declared, or a clock
    /// net that is read.
    Clocking(Name),
    /// The driver of each net reads the next one, and that of the last the first.
    Loop(Names),
    /// A name of the main model that a netlist can't be written with.
    Reserved(Name),
    /// The main model passes the limit of this count.
    TooLarge(What),
    /// The name of a state word is no latch output, or that of an output word no output.
    NoSuchNet(Name),
    /// The name stands twice in the state words, or twice in the output words.
    InTwoWords(Name),
    /// The latch or the output stands in none of the words that the settings give.
    NotInAWord(Name),
    /// The plain size of the guard is above 1,000,000 cells.
    GuardTooLarge,
    /// The line drives a net again, reads a net that no earlier line gives, passes on a net without a source or is clocked
    /// otherwise, or it is a second `.model`.
    Unordered(u32),
    /// The line is a `.subckt`.
    HasSubckt(u32),
    /// The line isn't one word with one `0` or `1` for each data input, nor `-` where there is none, or it would be cycle 1,000,000.
    BadStimulus(u32),
    /// The line isn't a cycle, a name and `0` or `1`, or an earlier line has the same cycle and cell.
    BadScript(u32),
    /// No cell has the net of the line as its output.
    NoSuchCell(u32),
    /// Sixteen earlier lines have the cycle of the line.
    MoreThanSixteen(u32),
}
