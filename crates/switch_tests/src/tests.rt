mod drawn;
mod edits;
mod entries;
mod hits;
mod messages;
mod switch;
