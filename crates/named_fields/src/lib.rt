// 003's tables of fields: all 24 messages, each field by its record's name, offset and format. Nothing runs here. Read specs/Named.antt,
// and specs/Formats.antt for what a format means.
#![tactic(auto)]
