ghost use Rattle.g1_text.specs.Laws.{OneImage, LinesAddUp, LinesSayImage, TextsSayImage, LinesSayOne, TextsSayOne, TextsSayOneGraph, OneValue, TextsGiveOwnNames, SameCarried, SameWhereverPlaced, TextsReadOne, PlainTextsStay};
ghost use Rattle.g1_text.specs.Renamed.{SameByName};
ghost use Rattle.g1_text.specs.RenamedExample.{told, told_otherwise, exchanged};

/// An image has one full text, and a full text is that of one image.
pub fn one_full_text()
    ensures { OneImage }
{}

/// The lines of an image are a heading and lines that add up to the image, and to nothing else. So a text with these
/// lines says the image.
pub fn full_lines_add_up()
    ensures image { LinesAddUp }
    ensures only { LinesSayImage }
    ensures text { TextsSayImage }
{}

/// The words of a line say at most one thing, and a text says at most one image.
pub fn one_meaning()
    ensures line { LinesSayOne }
    ensures text { TextsSayOne }
{}

/// A text says at most one graph by name.
pub fn one_graph()
    ensures { TextsSayOneGraph }
{}

/// A data word, as people write it, stands for at most one number.
pub fn one_value()
    ensures { OneValue }
{}

/// Two valid heaps that carry graphs by name show the same graph exactly if the graphs are the same by name: one is the
/// other with new names, whatever the order of the objects. So two that carry one graph show the same graph, wherever its
/// objects stand. Each object of a graph has to have a name of its own: it has in a graph that a text says.
pub fn same_by_name()
    ensures names { TextsGiveOwnNames }
    ensures heaps { SameCarried }
    ensures layout { SameWhereverPlaced }
{}

/// An example: other names, another order of the lines and other digits of a number make no other graph. Two slots that are
/// exchanged make one.
pub fn same_by_name_example()
    ensures same { SameByName told told_otherwise }
    ensures another { SameByName told exchanged → ⊥ }
{}

/// A text with weak references is read as one text, and one without them as it is.
pub fn one_reading()
    ensures one { TextsReadOne }
    ensures plain { PlainTextsStay }
{}
