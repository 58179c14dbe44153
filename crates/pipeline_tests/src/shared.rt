// What the tests share: texts and tables that are given, what is drawn, answers of merges, comparing.
pub mod comparing;
pub mod drawing;
pub mod given_texts;
pub mod merges;
pub mod tables;
