//! Small images that several tests use, each as the lines of docs/HEAP_TEXT.md. Regions have 16 words
//! and cards have 4. Each picture is a function, so that a proof that names one doesn't have it before
//! it. Of a picture and the one named `after` it, the second is by hand what a pause makes of the first.

/// Region 1 holds one object of four words, which the one root references.
pub fn one_object() -> &'static str {
    "heap 16 4 4
     root 16
     region 1 ordinary
     object 4/1 - 7 9"
}

/// The same object at the start of region 0.
pub fn one_object_after() -> &'static str {
    "heap 16 4 4
     root 0
     region 0 ordinary
     object 4/1 - 7 9"
}

/// The roots reference 21 and 16, two slots outside reference 21, and so do all three slots of 16.
pub fn shared() -> &'static str {
    "heap 16 4 4
     root 21
     root 16
     region 0 ordinary
     object 4/1 21 1 2
     object 2/1 21
     region 1 ordinary
     remembered 1 cards 0 1
     object 5/3 21 21 21 1
     object 2/0 8"
}

/// 21 is at 32 and 16 at 34.
pub fn shared_after() -> &'static str {
    "heap 16 4 4
     root 32
     root 34
     region 0 ordinary
     object 4/1 32 1 2
     object 2/1 32
     region 2 ordinary
     remembered 2 cards 0 1
     object 2/0 8
     object 5/3 32 32 32 1"
}

/// The slot at 17 of a humongous object over three regions references the object at 48.
pub fn humongous() -> &'static str {
    "heap 16 4 6
     root 0
     region 0 humongous
     object 40/20 - - - - - - - - - - - - - - - - 48 ..
     region 3 ordinary
     remembered 3 cards 4
     object 2/0 4"
}
