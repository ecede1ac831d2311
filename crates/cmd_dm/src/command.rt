use algebra_dm::Mode;
use value_dm::{NullMode, Text};

/// A command with its words.
#[derive(Drop)]
pub enum Command {
    /// Writes the direct graph of the database in a folder.
    Direct {
        /// What the graph's IRIs begin with.
        base: Text,

        /// The folder with `schema.sql` and one CSV file a table.
        folder: Text,

        /// `EmptyNull` where the word `empty-null` is given.
        nulls: NullMode,
    },

    /// Writes the map graph of the database in a folder.
    Map {
        /// What the graph's IRIs begin with.
        base: Text,

        /// The folder with `schema.sql` and one CSV file a table.
        folder: Text,

        /// `EmptyNull` where the word `empty-null` is given.
        nulls: NullMode,
    },

    /// Writes the map-keys graph of the database in a folder.
    MapKeys {
        /// What the graph's IRIs begin with.
        base: Text,

        /// The folder with `schema.sql` and one CSV file a table.
        folder: Text,

        /// `EmptyNull` where the word `empty-null` is given.
        nulls: NullMode,
    },

    /// Writes a line for each violated key of the database in a folder, and their count.
    Check {
        /// The folder with `schema.sql` and one CSV file a table.
        folder: Text,

        /// `EmptyNull` where the word `empty-null` is given.
        nulls: NullMode,
    },

    /// Stores the largest part of the database in a folder that keeps its keys, and writes a line for each row removed, and
    /// their count.
    Clean {
        /// The folder with `schema.sql` and one CSV file a table.
        folder: Text,

        /// The folder in which the files are stored.
        out: Text,

        /// `EmptyNull` where the word `empty-null` is given.
        nulls: NullMode,
    },

    /// Writes the triples by which further rows enlarge the map graph of the database in a folder.
    Append {
        /// What the graph's IRIs begin with.
        base: Text,

        /// The folder with `schema.sql` and one CSV file a table.
        folder: Text,

        /// The folder with one CSV file of further rows a table.
        more: Text,

        /// `EmptyNull` where the word `empty-null` is given, for the files of both folders.
        nulls: NullMode,
    },

    /// Stores the tables that the triples of a file of N-Triples stand for.
    Invert {
        /// What the graph's IRIs begin with.
        base: Text,

        /// The name of the file.
        graph: Text,

        /// The folder in which the files are stored.
        out: Text,
    },

    /// Writes the rows of a query over the database in a folder.
    Rows {
        /// The folder with `schema.sql` and one CSV file a table.
        folder: Text,

        /// The name of the file with the query's text.
        query: Text,

        /// `EmptyNull` where the word `empty-null` is given.
        nulls: NullMode,
    },

    /// Writes the pattern of a query over the tables of a folder as SPARQL text.
    Translate {
        /// Which graph the pattern is over: `Map` for the map graph, `MapKeys` for the map-keys graph.
        mode: Mode,

        /// What the graph's IRIs begin with.
        base: Text,

        /// The folder with `schema.sql`.
        folder: Text,

        /// The name of the file with the query's text.
        query: Text,
    },

    /// Writes the solutions of a query's pattern over the triples of a file of N-Triples.
    Ask {
        /// Which graph the pattern is over: `Map` for the map graph, `MapKeys` for the map-keys graph.
        mode: Mode,

        /// What the graph's IRIs begin with.
        base: Text,

        /// The folder with `schema.sql`.
        folder: Text,

        /// The name of the file with the triples.
        graph: Text,

        /// The name of the file with the query's text.
        query: Text,
    },

    /// Writes the solutions of the pattern in a file over the triples of a file of N-Triples.
    Sparql {
        /// The name of the file with the triples.
        graph: Text,

        /// The name of the file with the pattern's SPARQL text.
        pattern: Text,
    },

    /// Writes each triple of a file of N-Triples in its written form.
    Show {
        /// The name of the file.
        graph: Text,
    },

    /// Writes whether the triples of a file of N-Triples contradict themselves.
    Consistent {
        /// The name of the file.
        graph: Text,
    },

    /// Writes what is counted of the benchmark's database.
    Bench {
        /// How many persons it has, 1 to 50,000.
        n: u32,
    },
}
